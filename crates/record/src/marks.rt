// The walks of ownership: a type's walk visits its fields, and a field's walk visits the type it names. Marks are lent, one for each byte of the
// stream: a field is marked where its command begins, by the number of the root that led to it, and a type that was visited where its own begins.
ghost use Rattle.std.specs.Prelude.{◌≡◌, ◌≤◌, ◌<◌, length, get_or};
ghost use Rattle.record.specs.Base.{Str};
ghost use Rattle.record.specs.Lists.{opt_of};
ghost use Rattle.record.specs.Index.{Indexed, Declared};
ghost use Rattle.record.specs.Marks.{between, PlacesFrom, reference_at, IsBody, Entering, LeadsToTarget};
ghost use Rattle.record.specs.Marks.{Clear, Ready, IsVisited, Led, BodyWalked, FieldWalked};
ghost use Rattle.record.specs.Ownership.{RootWalked, RootsMarked, OwnersMarked};

use crate::command::{Cursor, Step, Struct};
use crate::cut;
use crate::index::find_declared;
use crate::le::byte_at;
use crate::operands::opt_text_at;
use crate::references::referenced_type;
use crate::seek::{Between, seek};
use crate::text::{Text, bytes_of};
use crate::versioned::Versioned;

// The mark of a type that was visited, which no root has.
const VISITED: u8 = 4;

// The place of a type's command, where its fields begin, and whether variants stand between them.
#[derive(Clone, Copy)]
struct Body {
    place: usize,
    from: Cursor,
    family: bool,
}

// The fields of the first family of a name that no structure has. A name that nobody declares has none: its place is where the stream ends.
fn family_fields(stream: &[u8], pool: &[u8], index: &[u16], name: &[u8]) -> Body
    ensures { let s : Str = stream.now in
        let p : Str = pool.now in
        (Indexed s p index.now → Declared s p index.now 8 name.now None
        → IsBody s p name.now result) }
{
    if let Some((place, after)) = find_declared(stream, pool, index, 9, name) {
        return Body {
            place,
            from: Cursor::place(after),
            family: true,
        };
    }
    Body {
        place: stream.len(),
        from: Cursor::place(stream.len()),
        family: false,
    }
}

// The fields of the first structure of a name, else of the first family.
fn type_fields(stream: &[u8], pool: &[u8], index: &[u16], name: &[u8]) -> Body
    ensures { let s : Str = stream.now in
        let p : Str = pool.now in
        (Indexed s p index.now → IsBody s p name.now result) }
{
    let Some((place, after)) = find_declared(stream, pool, index, 8, name) else {
        return family_fields(stream, pool, index, name);
    };
    Body {
        place,
        from: Cursor::place(after),
        family: false,
    }
}

// What may stand between the fields of a type.
fn between(family: bool) -> Between
    ensures { result ≡ between family }
{
    if family {
        Between::Variants
    } else {
        Between::Keys
    }
}

// The place of the next field of a type, with the cursor after its command. Plugin keys are passed over, and in a family its variants.
fn next_place(stream: &[u8], from: Cursor, family: bool) -> Step<usize>
    ensures { PlacesFrom family stream.now from.at result }
{
    let Some((place, after)) = seek(stream, from.at, 11, between(family)) else {
        return None;
    };
    Some((place, Cursor::place(after)))
}

// The name that the field at a place refers to.
pub fn reference_at(stream: &[u8], pool: &[u8], place: usize) -> Option<Text>
    ensures { opt_of pool.now result ≡ reference_at stream.now pool.now place }
{
    referenced_type(pool, cut::from(stream, place))
}

// The fields of the type of a name, unless it is a structure with slot text: one look-up tells both.
fn enter(stream: &[u8], pool: &[u8], index: &[u16], name: &[u8]) -> Option<Body>
    ensures { let s : Str = stream.now in
        let p : Str = pool.now in
        (Indexed s p index.now → Entering s p name.now result) }
{
    let Some((place, after)) = find_declared(stream, pool, index, 8, name) else {
        return Some(family_fields(stream, pool, index, name));
    };
    let slot = opt_text_at(cut::from(stream, place), 4);
    if let Some(_) = slot {
        return None;
    }
    Some(Body {
        place,
        from: Cursor::place(after),
        family: false,
    })
}

// What the field at a place leads to.
fn target_at(stream: &[u8], pool: &[u8], index: &[u16], place: usize) -> Option<Body>
    ensures { let s : Str = stream.now in
        let p : Str = pool.now in
        (Indexed s p index.now → LeadsToTarget s p place result) }
{
    let Some(name) = reference_at(stream, pool, place) else {
        return None;
    };
    enter(stream, pool, index, bytes_of(pool, name))
}

// Whether a type was visited, by the place of its command. One that nobody declares has no fields to visit.
fn is_visited(stream: &[u8], marks: &[u8], place: usize) -> bool
    ensures { IsVisited stream.now marks.now place result }
{
    stream.len() <= place || byte_at(marks, place) != 0
}

// Visits a field that has no mark: marks it, and visits the type that it leads to.
#[cycle(walk_field_walk_type)]
fn walk_field(stream: &[u8], pool: &[u8], index: &[u16], marks: &mut [u8], place: usize, mark: u8)
    requires { Ready stream.now marks.old mark × (place < length stream.now) × (get_or stream.now place 0 ≡ 11) }
    ensures { let s : Str = stream.now in
        let p : Str = pool.now in
        Led s p index.now marks.old marks.new
        (FieldWalked s p mark place marks.old marks.new) }
{
    if marks[place] != 0 {
        return;
    }
    marks[place] = mark;
    let Some(body) = target_at(stream, pool, index, place) else {
        return;
    };
    walk_type(stream, pool, index, marks, body, mark);
}

// Visits a type that was not visited: marks it, and visits its fields.
#[cycle(walk_field_walk_type)]
fn walk_type(stream: &[u8], pool: &[u8], index: &[u16], marks: &mut [u8], body: Body, mark: u8)
    requires { Ready stream.now marks.old mark }
    ensures { let s : Str = stream.now in
        let p : Str = pool.now in
        Led s p index.now marks.old marks.new
        (BodyWalked s p mark body marks.old marks.new) }
{
    let place = body.place;
    if is_visited(stream, marks, place) {
        return;
    }
    marks[place] = VISITED;
    let family = body.family;
    let mut cursor = body.from;
    loop {
        let Some((field, after)) = next_place(stream, cursor, family) else {
            return;
        };
        walk_field(stream, pool, index, marks, field, mark);
        cursor = after;
    }
}

// Takes every mark away.
fn clear(marks: &mut [u8])
    ensures { Clear marks.new }
{
    marks.fill(0);
}

// Marks what the structure in a slot leads to and no earlier root has taken.
fn mark_root(
    stream: &[u8],
    pool: &[u8],
    index: &[u16],
    marks: &mut [u8],
    root: Step<Struct>,
    mark: u8,
)
    requires { Ready stream.now marks.old mark }
    ensures { RootWalked stream.now pool.now index.now mark root marks.old marks.new }
{
    let Some((e, _)) = root else {
        return;
    };
    let name = e.name;
    let body = type_fields(stream, pool, index, bytes_of(pool, name));
    walk_type(stream, pool, index, marks, body, mark);
}

// Marks each field that a root leads to by the number of the first such root, where no mark is set.
pub(crate) fn mark_roots(
    stream: &[u8],
    pool: &[u8],
    roots: Versioned,
    index: &[u16],
    marks: &mut [u8],
)
    requires { (length stream.now ≤ length marks.old) × Clear marks.old }
    ensures { RootsMarked stream.now pool.now roots index.now marks.new }
{
    let first = roots.metadata;
    let second = roots.runtime;
    let third = roots.info;
    mark_root(stream, pool, index, marks, first, 1);
    mark_root(stream, pool, index, marks, second, 2);
    mark_root(stream, pool, index, marks, third, 3);
}

// Marks the fields of a record by the roots that lead to them, where the roots and the index are the record's.
pub fn mark_owners(stream: &[u8], pool: &[u8], roots: Versioned, index: &[u16], marks: &mut [u8])
    ensures { OwnersMarked stream.now pool.now roots index.now marks.old marks.new }
{
    if marks.len() < stream.len() {
        return;
    }
    clear(marks);
    mark_roots(stream, pool, roots, index, marks);
}
