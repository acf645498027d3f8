// Commands written anew, with the starts of their texts moved.
ghost use Rattle.std.specs.Prelude.{◌≡◌, ℕ, ◌≤◌, ◌<◌, length, get_or};
ghost use Rattle.record.specs.Base.{Str};
ghost use Rattle.record.specs.Fill.{joined};
ghost use Rattle.record.specs.Commands.{commands_at};
ghost use Rattle.record.specs.Write.{Puts};
ghost use Rattle.drafts.specs.Content.{bytes_at};
ghost use Rattle.drafts.specs.Packing.{moved_start, operand_bytes, row_bytes, written_at, written};
ghost use Rattle.drafts.specs.Code.{rank_at, start_of, text_bytes, up_to};

use crate::row::{letters_of, wide};
use record::cut;
use record::le::byte_at;
use record::operands::{opt_text_at, text_at};
use record::seek::after_at;
use record::text::Text;
use record::writer::put;

// A number of the table of ranks; past its end the last.
fn rank_at(ranks: &[u16], a: usize) -> u16
    ensures { result ≡ rank_at ranks.now a }
{
    if ranks.len() == 0 {
        return 0;
    }
    ranks[a.min(ranks.len() - 1)]
}

// Where a start moves to.
fn start_of(base: u16, ranks: &[u16], a: u16) -> u16
    ensures { result ≡ start_of base ranks.now a }
{
    base.saturating_add(rank_at(ranks, usize::from(a)))
}

// The start of a text that may be absent, moved.
fn moved_start(base: u16, ranks: &[u16], t: Option<Text>) -> u16
    ensures { result ≡ moved_start (start_of base ranks.now) t }
{
    let Some(text) = t else {
        return 65535;
    };
    start_of(base, ranks, text.start)
}

// Puts a text's three bytes.
fn put_text(out: &mut [u8], at: usize, start: u16, len: u8) -> usize
    ensures { Puts out.old at (text_bytes start len) out.new result }
{
    put(out, at, &[(start % 256) as u8, (start / 256) as u8, len])
}

// Puts bytes as they are; past the end of the slice they are 0.
fn put_plain(out: &mut [u8], at: usize, x: &[u8], n: usize) -> usize
    ensures { Puts out.old at (bytes_at x.now 0 n) out.new result }
{
    let mut end = at;
    for i in 0..n {
        end = put(out, end, &[byte_at(x, i)]);
    }
    end
}

// Puts one operand by its letter: its bytes, or a text with its start moved.
fn put_operand(
    out: &mut [u8],
    at: usize,
    base: u16,
    ranks: &[u16],
    x: &[u8],
    i: usize,
    letter: u8,
) -> usize
    ensures { let f : ℕ → ℕ = start_of base ranks.now in
        Puts out.old at (operand_bytes f x.now i letter) out.new result }
{
    match letter {
        b'F' => put_plain(out, at, cut::from(x, i), 1),
        b'N' => put_plain(out, at, cut::from(x, i), 5),
        b'W' => put_plain(out, at, cut::from(x, i), 4),
        b'V' => put_plain(out, at, cut::from(x, i), 8),
        _ => put_text(
            out,
            at,
            moved_start(base, ranks, opt_text_at(x, i)),
            text_at(x, i).len,
        ),
    }
}

// Puts the operands of a command by their letters.
fn put_row(out: &mut [u8], at: usize, base: u16, ranks: &[u16], x: &[u8], letters: &[u8]) -> usize
    requires { length letters.now ≤ 8 }
    ensures { let f : ℕ → ℕ = start_of base ranks.now in
        Puts out.old at (row_bytes f x.now 1 letters.now) out.new result }
{
    let mut end = at;
    let mut i = 1;
    for letter in letters {
        end = put_operand(out, end, base, ranks, x, i, *letter);
        i += wide(*letter);
    }
    end
}

// Puts the command at a place.
fn put_command(
    out: &mut [u8],
    at: usize,
    base: u16,
    ranks: &[u16],
    stream: &[u8],
    place: usize,
) -> usize
    ensures { let f : ℕ → ℕ = start_of base ranks.now in
        Puts out.old at (written_at f stream.now place) out.new result }
{
    let byte = byte_at(stream, place);
    let next = put(out, at, &[byte]);
    put_row(
        out,
        next,
        base,
        ranks,
        cut::from(stream, place),
        letters_of(byte),
    )
}

// Puts the commands from a place on, up to another.
pub(crate) fn put_commands(
    out: &mut [u8],
    at: usize,
    base: u16,
    ranks: &[u16],
    stream: &[u8],
    from: usize,
    to: usize,
) -> usize
    ensures { let f : ℕ → ℕ = start_of base ranks.now in
        let s : Str = stream.now in
        Puts out.old at (joined (written f s (up_to to (commands_at s from)))) out.new result }
{
    let mut end = at;
    let mut place = from;
    while place < to {
        let after = after_at(stream, place);
        if after == 0 {
            return end;
        }
        end = put_command(out, end, base, ranks, stream, place);
        place = after;
    }
    end
}
