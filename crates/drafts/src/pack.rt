// Chosen commands of a record put together anew, with the bytes of the pool that their texts cover: those before a place, and
// those from another on.
ghost use Rattle.std.specs.Prelude.{◌≡◌, ◌≤◌, length};
ghost use Rattle.record.specs.Base.{Str};
ghost use Rattle.record.specs.Fill.{joined};
ghost use Rattle.record.specs.Write.{Puts};
ghost use Rattle.drafts.specs.Packing.{texts_of, written};
ghost use Rattle.drafts.specs.Code.{start_of, chosen, Marks};
ghost use Rattle.drafts.specs.Packed.{Desk, Packed};

use crate::marking::{fill_ranks, mark_commands, put_marked};
use crate::writing::put_commands;

// The places after the commands and after the texts.
#[derive(Clone, Copy)]
pub struct Ends {
    pub stream: usize,
    pub pool: usize,
}

// Marks the texts of the chosen commands.
fn mark_chosen(marks: &mut [u8], stream: &[u8], until: usize, from: usize)
    ensures { Marks (texts_of stream.now (chosen stream.now until from)) marks.old marks.new }
{
    mark_commands(marks, stream, 0, until);
    mark_commands(marks, stream, from, stream.len());
}

// Puts the chosen commands.
fn put_chosen(
    out: &mut [u8],
    at: usize,
    base: u16,
    ranks: &[u16],
    stream: &[u8],
    until: usize,
    from: usize,
) -> usize
    ensures { let s : Str = stream.now in
        Puts out.old at (joined (written (start_of base ranks.now) s (chosen s until from))) out.new result }
{
    let next = put_commands(out, at, base, ranks, stream, 0, until);
    put_commands(out, next, base, ranks, stream, from, stream.len())
}

// A length of a pool as the number of bytes before a text.
fn base_of(n: usize) -> u16
    requires { n ≤ 16384 }
    ensures { result ≡ n }
{
    n as u16
}

// Packs over a lent table of marks and one of ranks.
fn pack_by(
    marks: &mut [u8],
    ranks: &mut [u16],
    stream: &[u8],
    pool: &[u8],
    until: usize,
    from: usize,
    out: &mut [u8],
    words: &mut [u8],
    ends: Ends,
) -> Ends
    requires { Desk marks.old ranks.old pool.now ends.pool }
    ensures { let s : Str = stream.now in
        Packed s pool.now (chosen s until from) ends
        out.old out.new words.old words.new result }
{
    let base = base_of(ends.pool);
    mark_chosen(marks, stream, until, from);
    fill_ranks(marks, ranks);
    Ends {
        stream: put_chosen(out, ends.stream, base, ranks, stream, until, from),
        pool: put_marked(words, ends.pool, marks, pool),
    }
}

// Packs the chosen commands and their texts behind those that end at `ends`.
pub(crate) fn pack(
    stream: &[u8],
    pool: &[u8],
    until: usize,
    from: usize,
    out: &mut [u8],
    words: &mut [u8],
    ends: Ends,
) -> Ends
    requires { (length pool.now ≤ 16384) × (ends.pool ≤ 16384) }
    ensures { let s : Str = stream.now in
        Packed s pool.now (chosen s until from) ends
        out.old out.new words.old words.new result }
{
    let mut marks = [0u8; 16384];
    let mut ranks = [0u16; 16385];
    let n = pool.len();
    pack_by(
        &mut marks[..n],
        &mut ranks[..n + 1],
        stream,
        pool,
        until,
        from,
        out,
        words,
        ends,
    )
}
