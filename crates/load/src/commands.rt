// The commands of a field and of a structure, put as bytes.
ghost use Rattle.std.specs.Prelude.{◌≡◌, ◌/◌, ◌%◌};
ghost use Rattle.record.specs.Write.{Puts};
ghost use Rattle.load.specs.Commands.{struct_bytes, struct_command, operand_bytes, num_bytes, texts_bytes, nums_bytes, field_bytes};

use record::text::Text;
use record::writer::put;

// A field's operands; an absent text has start 65535 and length 0.
#[derive(Clone, Copy)]
pub struct FieldCommand {
    pub name: Text,
    pub kind: Text,
    pub typ: Text,
    pub element: Text,
    pub count: Option<u32>,
    pub rows: Option<u32>,
    pub cols: Option<u32>,
    pub size: Option<u32>,
}

// The lower and the upper byte of a number of 16 bits.
pub(crate) fn low(n: u16) -> u8
    ensures { result ≡ n % 256 }
{
    (n % 256) as u8
}

pub(crate) fn high(n: u16) -> u8
    ensures { result ≡ n / 256 }
{
    (n / 256) as u8
}

// Puts a structure's command.
pub(crate) fn put_struct(out: &mut [u8], at: usize, name: Text, slot: Text, version: Text) -> usize
    ensures { Puts out.old at (struct_bytes (struct_command name slot version)) out.new result }
{
    put(
        out,
        at,
        &[
            8,
            low(name.start),
            high(name.start),
            name.len,
            low(slot.start),
            high(slot.start),
            slot.len,
            low(version.start),
            high(version.start),
            version.len,
        ],
    )
}

// Puts a text's operand.
fn put_operand(out: &mut [u8], at: usize, t: Text) -> usize
    ensures { Puts out.old at (operand_bytes t) out.new result }
{
    put(out, at, &[low(t.start), high(t.start), t.len])
}

// Puts a number's operand; one that is absent has zeros.
fn put_num(out: &mut [u8], at: usize, n: Option<u32>) -> usize
    ensures { Puts out.old at (num_bytes n) out.new result }
{
    let Some(v) = n else {
        return put(out, at, &[0, 0, 0, 0, 0]);
    };
    put(
        out,
        at,
        &[
            1,
            (v % 256) as u8,
            (v / 256 % 256) as u8,
            (v / 65536 % 256) as u8,
            (v / 16777216) as u8,
        ],
    )
}

// Puts a field's texts.
fn put_texts(out: &mut [u8], at: usize, f: FieldCommand) -> usize
    ensures { Puts out.old at (texts_bytes f) out.new result }
{
    let name = f.name;
    let kind = f.kind;
    let typ = f.typ;
    let element = f.element;
    let a = put_operand(out, at, name);
    let b = put_operand(out, a, kind);
    let c = put_operand(out, b, typ);
    put_operand(out, c, element)
}

// Puts a field's numbers.
fn put_nums(out: &mut [u8], at: usize, f: FieldCommand) -> usize
    ensures { Puts out.old at (nums_bytes f) out.new result }
{
    let count = f.count;
    let rows = f.rows;
    let cols = f.cols;
    let size = f.size;
    let a = put_num(out, at, count);
    let b = put_num(out, a, rows);
    let c = put_num(out, b, cols);
    put_num(out, c, size)
}

// Puts a field's command.
pub(crate) fn put_field(out: &mut [u8], at: usize, f: FieldCommand) -> usize
    ensures { Puts out.old at (field_bytes f) out.new result }
{
    let a = put(out, at, &[11]);
    let b = put_texts(out, a, f);
    put_nums(out, b, f)
}
