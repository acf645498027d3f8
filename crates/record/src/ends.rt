// Where the lists of a record end: a walk over the commands of some numbers need not go on to the end of the stream.
ghost use Rattle.std.specs.Prelude.{◌≡◌, ◌≤◌, length};
ghost use Rattle.record.specs.Index.{IndexRoom};
ghost use Rattle.record.specs.Ends.{noted, no_ends, IndexedTo};

use crate::index::{clear, put_declared};
use crate::le::byte_at;
use crate::seek::after_at;

// The place after the last command of each list; 0 where there is none.
#[derive(Clone, Copy)]
pub struct Ends {
    pub constants: usize,
    pub enums: usize,
    pub bitfields: usize,
    pub keys: usize,
}

// The ends once one more command is seen, by its number and the place after it.
#[tactic(auto, unfolding(crate::specs::Ends::noted))]
fn noted(ends: Ends, number: u8, after: usize) -> Ends
    ensures { result ≡ noted ends number after }
{
    match number {
        2 => Ends {
            constants: after,
            ..ends
        },
        4 | 5 => Ends {
            enums: after,
            ..ends
        },
        6 | 7 => Ends {
            bitfields: after,
            ..ends
        },
        12 | 13 => Ends {
            keys: after,
            ..ends
        },
        _ => ends,
    }
}

// The ends where no command is seen.
fn no_ends() -> Ends
    ensures { result ≡ no_ends }
{
    Ends {
        constants: 0,
        enums: 0,
        bitfields: 0,
        keys: 0,
    }
}

// Fills the index of a record, for which it has room, and finds where the lists end in the same walk: a check needs both.
pub fn index_with_ends(stream: &[u8], pool: &[u8], index: &mut [u16]) -> Ends
    requires { (length stream.now ≤ 32768) × IndexRoom stream.now index.old }
    ensures { IndexedTo stream.now pool.now index.new result }
{
    clear(index);
    let mut ends = no_ends();
    let mut at = 0;
    loop {
        let after = after_at(stream, at);
        if after == 0 {
            return ends;
        }
        put_declared(stream, pool, index, at);
        ends = noted(ends, byte_at(stream, at), after);
        at = after;
    }
}
