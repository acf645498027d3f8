// A record written as its two parts.
ghost use Rattle.std.specs.Prelude.{[], ◌≤◌, length};
ghost use Rattle.record.specs.Write.{Puts};
ghost use Rattle.record.specs.Reading.{rec};
ghost use Rattle.drafts.specs.Parts.{le4, parts_of};

use record::writer::put;

// Puts a length in four bytes.
fn put_length(out: &mut [u8], at: usize, n: usize) -> usize
    requires { n ≤ 32768 }
    ensures { Puts out.old at (le4 n) out.new result }
{
    put(out, at, &(n as u32).to_le_bytes())
}

// Puts a record at the front of a buffer; answers the length that it takes.
pub(crate) fn put_parts(out: &mut [u8], stream: &[u8], pool: &[u8]) -> usize
    requires { (length stream.now ≤ 32768) × (length pool.now ≤ 16384) }
    ensures { Puts out.old 0 (parts_of (rec stream.now pool.now [])) out.new result }
{
    let a = put_length(out, 0, stream.len());
    let b = put(out, a, stream);
    let c = put_length(out, b, pool.len());
    put(out, c, pool)
}
