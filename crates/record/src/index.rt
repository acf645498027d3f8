// An index of the names that a record declares, in a slice that the caller lends. Names are kept by a number below 256 that their length, their
// first and their last bytes give: first the place of the last command of each number, then for each command the place of the one before it of its
// number. Every place is one more than it is, and 0 is none. A declaring command takes seven bytes at least, so no two have one entry: their place
// divided by seven.
ghost use Rattle.std.specs.Prelude.{◌≡◌, ◌+◌, ◌/◌, ◌≤◌, ◌<◌, length, get_or, set};
ghost use Rattle.record.specs.Base.{Str};
ghost use Rattle.record.specs.Index.{mixed, hash_of, declared_name, declares, is_named, link_before, put_at, IndexRoom, Indexed, Headless};
ghost use Rattle.record.specs.Index.{FirstNamed, PlaceNamed, Declared, is_flagged, counts, LastNamed, LastDeclared, Alone, Looked};

use crate::cut;
use crate::le::{byte_at, u32_at};
use crate::operands::{flag_at, text_at};
use crate::seek::{Between, after_at, seek};
use crate::text::{bytes_of, same};

// A byte of a text as a larger number; 0 past its end.
fn size_at(name: &[u8], at: usize) -> usize
    ensures { (result ≡ get_or name.now at 0) × (result < 256) }
{
    usize::from(byte_at(name, at))
}

// Four bytes of a text as one number that each of them changes much.
fn mixed(name: &[u8], at: usize) -> usize
    ensures { (result ≡ mixed name.now at) × (result ≤ 68719476735) }
{
    let bytes = u32_at(name, at) as usize;
    bytes * 2246822519 / 268435456
}

// The number by which a name is kept. Names of one record are often alike at their front or at their end, so both count, and the length.
fn hash_of(name: &[u8]) -> usize
    ensures { result ≡ hash_of name.now }
{
    let n = name.len();
    let front = 195 * (n % 256) + 142 * size_at(name, 0);
    if n < 4 {
        let second = size_at(name, 1);
        let third = size_at(name, 2);
        return (front + 20 * second + 205 * third) % 256;
    }
    (front + mixed(name, n - 4)) % 256
}

// The name that the command at a place begins with.
fn declared_name<'a>(stream: &[u8], pool: &'a [u8], place: usize) -> &'a [u8]
    ensures { result.now ≡ declared_name stream.now pool.now place }
{
    bytes_of(pool, text_at(cut::from(stream, place), 1))
}

// Whether a command declares a name that look-ups ask for: a constant, an alias, an enum, a bit field, a structure, a family or an unstored key.
#[tactic(auto, unfolding(crate::specs::Index::declares))]
fn declares(byte: u8) -> bool
    ensures { result ≡ declares byte }
{
    matches!(byte, 2 | 3 | 4 | 6 | 8 | 9 | 13)
}

// A number of the index; 0 past its end. The index is lent memory of a fixed size (no heap), in which 0 is no place.
pub(crate) fn link_at(index: &[u16], i: usize) -> usize
    ensures { result ≡ get_or index.now i 0 }
{
    index.get(i).copied().map_or(0, usize::from)
}

// The command before the one at a place; none where the entry leads to no place before.
fn link_before(index: &[u16], place: usize) -> usize
    ensures { result ≡ link_before index.now place }
{
    let link = link_at(index, 256 + place / 7);
    if place < link {
        return 0;
    }
    link
}

// Takes every number's place away.
pub(crate) fn clear(index: &mut [u16])
    requires { 256 ≤ length index.old }
    ensures { Headless index.old index.new }
{
    index[..256].fill(0);
}

// Puts a command at the front of those of its number.
fn put(index: &mut [u16], hash: usize, place: usize)
    requires { (hash < 256) × (place < 32768) × (256 + place / 7 < length index.old) }
    ensures { index.new ≡ set (set index.old (256 + place / 7) (get_or index.old hash 0)) hash (place + 1) }
{
    index[256 + place / 7] = index[hash];
    index[hash] = (place + 1) as u16;
}

// Puts the command at a place into the index, where it declares a name.
pub(crate) fn put_declared(stream: &[u8], pool: &[u8], index: &mut [u16], at: usize)
    requires { (at < 32768) × (256 + at / 7 < length index.old) }
    ensures { index.new ≡ put_at stream.now pool.now index.old at }
{
    if declares(byte_at(stream, at)) {
        let hash = hash_of(declared_name(stream, pool, at));
        put(index, hash, at);
    }
}

// Puts every declaring command into an index that has room for them.
fn fill_room(stream: &[u8], pool: &[u8], index: &mut [u16])
    requires { (length stream.now ≤ 32768) × IndexRoom stream.now index.old }
    ensures { Indexed stream.now pool.now index.new }
{
    clear(index);
    let mut at = 0;
    loop {
        let after = after_at(stream, at);
        if after == 0 {
            return;
        }
        put_declared(stream, pool, index, at);
        at = after;
    }
}

// Fills the index of a record.
pub fn fill_index(stream: &[u8], pool: &[u8], index: &mut [u16])
    ensures { let s : Str = stream.now in
        (length s ≤ 32768 → IndexRoom s index.old → Indexed s pool.now index.new) }
{
    if 32768 < stream.len() {
        return;
    }
    if index.len() <= 256 + stream.len() / 7 {
        return;
    }
    fill_room(stream, pool, index);
}

// Whether the command at a place has this number and name.
#[tactic(auto, unfolding(crate::specs::Index::is_named))]
fn is_named(stream: &[u8], pool: &[u8], number: u8, name: &[u8], place: usize) -> bool
    ensures { result ≡ is_named stream.now pool.now number name.now place }
{
    byte_at(stream, place) == number && same(declared_name(stream, pool, place), name)
}

// The first command of a number and a name, one more than its place; 0 where there is none, as the definition `FirstNamed` has it. What is seen
// last on the way from the last command to the first is the first.
pub(crate) fn first_named(
    stream: &[u8],
    pool: &[u8],
    index: &[u16],
    number: u8,
    name: &[u8],
) -> usize
    ensures { FirstNamed stream.now pool.now index.now number name.now result }
{
    let mut found = 0;
    let mut link = link_at(index, hash_of(name));
    while link != 0 {
        let place = link - 1;
        if is_named(stream, pool, number, name, place) {
            found = link;
        }
        link = link_before(index, place);
    }
    found
}

// The place of the first command of a number and a name, and the place after it.
pub fn find_declared(
    stream: &[u8],
    pool: &[u8],
    index: &[u16],
    number: u8,
    name: &[u8],
) -> Option<(usize, usize)>
    ensures { Declared stream.now pool.now index.now number name.now result }
{
    let found = first_named(stream, pool, index, number, name);
    if found == 0 {
        return None;
    }
    let place = found - 1;
    Some((place, after_at(stream, place)))
}

// The place of the first command of a number and a name, and the place after it, by a look at every command of the number.
fn scan_declared(stream: &[u8], pool: &[u8], number: u8, name: &[u8]) -> Option<(usize, usize)>
    ensures { PlaceNamed stream.now pool.now name.now number result }
{
    let mut at = 0;
    loop {
        let Some((place, after)) = seek(stream, at, number, Between::Anything) else {
            return None;
        };
        if same(declared_name(stream, pool, place), name) {
            return Some((place, after));
        }
        at = after;
    }
}

// By the index, and without it where it is empty: what is read before an index is filled has none.
pub(crate) fn look_up(
    stream: &[u8],
    pool: &[u8],
    index: &[u16],
    number: u8,
    name: &[u8],
) -> Option<(usize, usize)>
    ensures { Looked stream.now pool.now index.now number name.now result }
{
    if index.len() == 0 {
        return scan_declared(stream, pool, number, name);
    }
    find_declared(stream, pool, index, number, name)
}

// Whether the flag at this place of a command is set; any is where the place is 0.
#[tactic(auto, unfolding(crate::specs::Index::is_flagged))]
fn is_flagged(stream: &[u8], flag: usize, place: usize) -> bool
    ensures { result ≡ is_flagged stream.now flag place }
{
    flag == 0 || flag_at(cut::from(stream, place), flag)
}

// Whether the command at a place has this number and name, and the flag.
#[tactic(auto, unfolding(crate::specs::Index::counts))]
fn counts(stream: &[u8], pool: &[u8], number: u8, flag: usize, name: &[u8], place: usize) -> bool
    ensures { result ≡ counts stream.now pool.now number flag name.now place }
{
    is_named(stream, pool, number, name, place) && is_flagged(stream, flag, place)
}

// The last command of a number and a name whose flag at a place of the command is set (any, where that place is 0), one more than its place; 0
// where there is none. It is the first that is seen.
fn last_named(
    stream: &[u8],
    pool: &[u8],
    index: &[u16],
    number: u8,
    flag: usize,
    name: &[u8],
) -> usize
    ensures { LastNamed stream.now pool.now index.now number flag name.now result }
{
    let mut link = link_at(index, hash_of(name));
    while link != 0 {
        let place = link - 1;
        if counts(stream, pool, number, flag, name, place) {
            return link;
        }
        link = link_before(index, place);
    }
    0
}

// The place of that command, and the place after it.
pub(crate) fn find_last(
    stream: &[u8],
    pool: &[u8],
    index: &[u16],
    number: u8,
    flag: usize,
    name: &[u8],
) -> Option<(usize, usize)>
    ensures { LastDeclared stream.now pool.now index.now number flag name.now result }
{
    let found = last_named(stream, pool, index, number, flag, name);
    if found == 0 {
        return None;
    }
    let place = found - 1;
    Some((place, after_at(stream, place)))
}

// Whether a family of this name is standalone.
pub fn stands_alone(stream: &[u8], pool: &[u8], index: &[u16], name: &[u8]) -> bool
    ensures { Alone stream.now pool.now index.now name.now result }
{
    let Some((_, _)) = find_last(stream, pool, index, 9, 16, name) else {
        return false;
    };
    true
}
