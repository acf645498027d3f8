// The bytes of a pool that texts cover, marked; how many marks stand before each place; and the bytes that are marked.
ghost use Rattle.std.specs.Prelude.{◌≡◌, [], ◌∷◌, not, cond, ◌+◌, ◌≤◌, ◌<◌, length, eqb};
ghost use Rattle.record.specs.Base.{Str, with_some};
ghost use Rattle.record.specs.Commands.{commands_at};
ghost use Rattle.record.specs.Write.{Puts};
ghost use Rattle.record.specs.CommandTexts.{no_text, texts_from, texts_at};
ghost use Rattle.drafts.specs.Packing.{texts_of, kept};
ghost use Rattle.drafts.specs.Code.{up_to, operand_texts, Marks, is_marked, Ranked};

use crate::row::{letters_of, wide};
use record::cut;
use record::le::byte_at;
use record::operands::opt_text_at;
use record::seek::after_at;
use record::text::Text;
use record::writer::put;

// Marks the bytes of a text.
fn mark_text(marks: &mut [u8], t: Text)
    ensures { Marks (t ∷ []) marks.old marks.new }
{
    let end = marks.len().min(usize::from(t.start) + usize::from(t.len));
    let start = end.min(usize::from(t.start));
    marks[start..end].fill(1);
}

// Marks the bytes of a text that may be absent.
fn mark_given(marks: &mut [u8], t: Option<Text>)
    ensures { Marks (with_some t []) marks.old marks.new }
{
    let Some(text) = t else {
        return;
    };
    mark_text(marks, text);
}

// Whether an operand is no text.
fn is_plain(letter: u8) -> bool
    ensures { result ≡ no_text letter }
{
    matches!(letter, b'F' | b'N' | b'W' | b'V')
}

// Marks the text of one operand by its letter.
fn mark_operand(marks: &mut [u8], x: &[u8], i: usize, letter: u8)
    ensures { Marks (operand_texts x.now i letter) marks.old marks.new }
{
    if is_plain(letter) {
        return;
    }
    mark_given(marks, opt_text_at(x, i));
}

// Marks the texts among the operands of a command.
fn mark_row(marks: &mut [u8], x: &[u8], letters: &[u8])
    requires { length letters.now ≤ 8 }
    ensures { Marks (texts_from x.now 1 letters.now) marks.old marks.new }
{
    let mut i = 1;
    for letter in letters {
        mark_operand(marks, x, i, *letter);
        i += wide(*letter);
    }
}

// Marks the texts of the command at a place.
fn mark_command(marks: &mut [u8], stream: &[u8], place: usize)
    ensures { Marks (texts_at stream.now place) marks.old marks.new }
{
    mark_row(
        marks,
        cut::from(stream, place),
        letters_of(byte_at(stream, place)),
    );
}

// Marks the texts of the commands from a place on, up to another.
pub(crate) fn mark_commands(marks: &mut [u8], stream: &[u8], from: usize, to: usize)
    ensures { let s : Str = stream.now in
        Marks (texts_of s (up_to to (commands_at s from))) marks.old marks.new }
{
    let mut place = from;
    while place < to {
        let after = after_at(stream, place);
        if after == 0 {
            return;
        }
        mark_command(marks, stream, place);
        place = after;
    }
}

// 1 for a mark, 0 for none.
fn counted(mark: u8) -> u16
    ensures { (result ≡ cond (not (eqb mark 0)) 1 0) × (result ≤ 1) }
{
    if mark == 0 { 0 } else { 1 }
}

// How many marks stand before each place, the end of the marks among them.
pub(crate) fn fill_ranks(marks: &[u8], ranks: &mut [u16])
    requires { (length marks.now ≤ 16384) × (length ranks.old ≡ length marks.now + 1) }
    ensures { Ranked marks.now ranks.new }
{
    let mut sum: u16 = 0;
    for (i, mark) in marks.iter().enumerate() {
        ranks[i] = sum;
        sum += counted(*mark);
    }
    ranks[marks.len()] = sum;
}

// Puts the bytes of a pool that are marked.
pub(crate) fn put_marked(out: &mut [u8], at: usize, marks: &[u8], pool: &[u8]) -> usize
    ensures { Puts out.old at (kept (is_marked marks.now) 0 pool.now) out.new result }
{
    let mut end = at;
    for (i, byte) in pool.iter().enumerate() {
        if byte_at(marks, i) != 0 {
            end = put(out, end, &[*byte]);
        }
    }
    end
}
