// The structures that carry a generation: struct_in_slot, generation_slots and versioned_structs of the Rust.
ghost use Rattle.std.specs.Prelude.{◌≡◌};
ghost use Rattle.record.specs.Versioned.{InSlots, first_slotted, filled_by};

use crate::command::{Cursor, Step, Struct, struct_at};
use crate::cut;
use crate::operands::opt_text_at;
use crate::references::is_text;
use crate::seek::{Between, seek};

// What fills each slot, in the order of the Rust's SLOT_ORDER.
#[derive(Clone, Copy)]
pub struct Versioned {
    pub info: Step<Struct>,
    pub metadata: Step<Struct>,
    pub runtime: Step<Struct>,
}

// What fills a slot once one more structure is seen: the first with the slot text.
fn first_slotted(
    pool: &[u8],
    slot: &[u8],
    filled: Step<Struct>,
    e: Struct,
    after: usize,
) -> Step<Struct>
    ensures { result ≡ first_slotted pool.now slot.now filled e after }
{
    if let Some((first, from)) = filled {
        return Some((first, from));
    }
    let given = e.generation_slot;
    if is_text(pool, given, slot) {
        return Some((e, Cursor::place(after)));
    }
    None
}

// What fills the slots once one more structure is seen.
fn filled_by(pool: &[u8], filled: Versioned, e: Struct, after: usize) -> Versioned
    ensures { result ≡ filled_by pool.now filled e after }
{
    let info = filled.info;
    let metadata = filled.metadata;
    let runtime = filled.runtime;
    Versioned {
        info: first_slotted(pool, b"info", info, e, after),
        metadata: first_slotted(pool, b"metadata", metadata, e, after),
        runtime: first_slotted(pool, b"runtime", runtime, e, after),
    }
}

// The first structure with each slot text, in one walk over the structures, most of which have none.
pub fn versioned_structs(stream: &[u8], pool: &[u8]) -> Versioned
    ensures { InSlots stream.now pool.now result }
{
    let mut filled = Versioned {
        info: None,
        metadata: None,
        runtime: None,
    };
    let mut at = 0;
    loop {
        let Some((place, after)) = seek(stream, at, 8, Between::Anything) else {
            return filled;
        };
        at = after;
        let bytes = cut::from(stream, place);
        if let Some(_) = opt_text_at(bytes, 4) {
            filled = filled_by(pool, filled, struct_at(bytes), after);
        }
    }
}
