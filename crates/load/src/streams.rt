// The two records of a pair, put command by command.
ghost use Rattle.std.specs.Prelude.{◌≡◌, [], ◌++◌};
ghost use Rattle.record.specs.Write.{Puts};
ghost use Rattle.load.specs.Pool.{absent, t·GENERATION, t·TILE-LIMIT, t·0·8·0};
ghost use Rattle.load.specs.Range.{InRange};
ghost use Rattle.load.specs.Plan.{generation_now};
ghost use Rattle.load.specs.Generator.{head_bytes, integer_bytes, version_bytes, edited_fields, spare_now};
ghost use Rattle.load.specs.Generator.{released_commands, current_commands, stream_of};
ghost use Rattle.load.specs.Bytes.{commands_bytes, shared_bytes, rest_bytes};

use crate::commands::{high, low};
use crate::drawn::{ABSENT, now_text, struct_text, was_text};
use crate::outcomes::Outcome;
use crate::root::put_all;
use crate::settings::Setting;
use crate::structures::put_none;
use record::text::Text;
use record::writer::put;

// Puts the head.
fn put_head(out: &mut [u8], at: usize, release: Text) -> usize
    ensures { Puts out.old at (head_bytes release) out.new result }
{
    put(
        out,
        at,
        &[1, low(release.start), high(release.start), release.len, 0],
    )
}

// Puts a constant with a number.
fn put_integer(out: &mut [u8], at: usize, name: Text, n: u32, api: u8, first: Text) -> usize
    ensures { Puts out.old at (integer_bytes name n api first) out.new result }
{
    put(
        out,
        at,
        &[
            2,
            low(name.start),
            high(name.start),
            name.len,
            0,
            (n % 256) as u8,
            (n / 256 % 256) as u8,
            (n / 65536 % 256) as u8,
            (n / 16777216) as u8,
            0,
            0,
            0,
            0,
            255,
            255,
            0,
            api,
            low(first.start),
            high(first.start),
            first.len,
        ],
    )
}

// Puts the version entry.
fn put_version(out: &mut [u8], at: usize, name: Text, n: u32) -> usize
    ensures { Puts out.old at (version_bytes name n) out.new result }
{
    put(
        out,
        at,
        &[
            14,
            low(name.start),
            high(name.start),
            name.len,
            (n % 256) as u8,
            (n / 256 % 256) as u8,
            (n / 65536 % 256) as u8,
            (n / 16777216) as u8,
        ],
    )
}

// Puts the constants, aliases, enums, bit fields, families and unstored keys that are the same in every record.
fn put_shared(out: &mut [u8], at: usize) -> usize
    ensures { Puts out.old at shared_bytes out.new result }
{
    put(
        out,
        at,
        b"\x02\x37\x03\x0a\x00\x04\x00\x00\x00\x00\x00\x00\x00\xff\xff\x00\x01\xff\xff\x00\
            \x02\x41\x03\x06\x01\x00\x00\x00\x00\x00\x00\x00\x00\x47\x03\x08\x00\xff\xff\x00\
            \x03\x4f\x03\x05\xc4\x03\x03\
            \x03\x54\x03\x04\xc1\x03\x03\
            \x04\x58\x03\x06\x01\x00\x00\x00\x01\xf0\x02\x05\
            \x05\x5e\x03\x04\x00\x00\x00\x00\x00\x00\x00\x00\xff\xff\x00\
            \x05\x62\x03\x04\x01\x00\x00\x00\x00\x00\x00\x00\xf0\x02\x05\
            \x05\x66\x03\x04\x02\x00\x00\x00\x00\x00\x00\x00\xff\xff\x00\
            \x04\x6a\x03\x04\x02\x00\x00\x00\x00\xff\xff\x00\
            \x05\x6e\x03\x04\x00\x00\x00\x00\x00\x00\x00\x00\xff\xff\x00\
            \x05\x72\x03\x04\x01\x00\x00\x00\x00\x00\x00\x00\xff\xff\x00\
            \x05\x76\x03\x05\xff\xff\xff\xff\xff\xff\xff\xff\xff\xff\x00\
            \x06\x7b\x03\x05\x01\x00\x00\x00\xf0\x02\x05\
            \x07\x80\x03\x04\x00\x00\x00\x00\x00\x00\x00\x00\x00\xff\xff\x00\
            \x07\x84\x03\x04\x01\x00\x00\x00\x01\x03\x00\x00\x00\xf0\x02\x05\
            \x09\x88\x03\x05\x8d\x03\x03\x6a\x03\x04\x90\x03\x03\xc1\x03\x03\x00\
            \x0b\x93\x03\x03\xb0\x01\x06\xc1\x03\x03\xff\xff\x00\x00\x00\x00\x00\x00\x00\x00\x00\x00\x00\x00\x00\x00\x00\x00\x00\x00\x00\x00\x00\
            \x0a\x96\x03\x01\
            \x0b\x97\x03\x04\xb0\x01\x06\xbf\x03\x02\xff\xff\x00\x00\x00\x00\x00\x00\x00\x00\x00\x00\x00\x00\x00\x00\x00\x00\x00\x00\x00\x00\x00\
            \x0b\x9b\x03\x03\xc8\x02\x07\xff\xff\x00\xff\xff\x00\x00\x00\x00\x00\x00\x00\x00\x00\x00\x00\x00\x00\x00\x00\x00\x01\x01\x00\x00\x00\
            \x0a\x9e\x03\x01\
            \x0b\x9f\x03\x03\x00\x02\x0c\xff\xff\x00\xc1\x03\x03\x01\x03\x00\x00\x00\x00\x00\x00\x00\x00\x00\x00\x00\x00\x00\x00\x00\x00\x00\x00\
            \x09\xa2\x03\x06\xa8\x03\x04\x58\x03\x06\xac\x03\x04\xff\xff\x00\x01\
            \x0b\xb0\x03\x03\xd8\x01\x0a\x4f\x03\x05\xff\xff\x00\x00\x00\x00\x00\x00\x00\x00\x00\x00\x00\x00\x00\x00\x00\x00\x00\x00\x00\x00\x00\
            \x0a\xb3\x03\x01\
            \x0b\xb4\x03\x03\xdc\x02\x06\xff\xff\x00\xff\xff\x00\x00\x00\x00\x00\x00\x00\x00\x00\x00\x00\x00\x00\x00\x00\x00\x00\x00\x00\x00\x00\
            \x0d\xb7\x03\x05\xf0\x02\x05\
            \x0d\xbc\x03\x03\xf0\x02\x05",
    )
}

// Puts the end of a stream.
fn put_stop(out: &mut [u8], at: usize) -> usize
    ensures { Puts out.old at (stream_of []) out.new result }
{
    put(out, at, &[15])
}

// Puts a record up to its generation.
fn put_start(out: &mut [u8], at: usize, release: Text, n: u32) -> usize
    ensures { Puts out.old at (head_bytes release ++ integer_bytes t·GENERATION n 0 absent) out.new result }
{
    let next = put_head(out, at, release);
    put_integer(
        out,
        next,
        Text {
            start: 803,
            len: 10,
        },
        n,
        0,
        ABSENT,
    )
}

// Puts the constant that 20 leaves out.
fn put_spare(out: &mut [u8], at: usize, g: Setting) -> usize
    ensures { Puts out.old at (integer_bytes t·TILE-LIMIT g.spare 1 t·0·8·0) out.new result }
{
    put_integer(
        out,
        at,
        Text {
            start: 813,
            len: 10,
        },
        g.spare,
        1,
        Text { start: 752, len: 5 },
    )
}

// Puts it in a current record.
fn put_spare_now(out: &mut [u8], at: usize, g: Setting, o: Outcome) -> usize
    ensures { Puts out.old at (commands_bytes (spare_now g o)) out.new result }
{
    match o {
        Outcome::ConstantGone => put_none(out, at),
        _ => put_spare(out, at, g),
    }
}

// The generation of a current record.
fn number_now(g: Setting, o: Outcome) -> u32
    requires { InRange g }
    ensures { result ≡ generation_now o g.generation }
{
    match o {
        Outcome::Accepted => g.generation + 1,
        _ => g.generation,
    }
}

// Puts a record from the shared commands on.
fn put_rest(out: &mut [u8], at: usize, g: Setting, n: u32, o: Outcome) -> usize
    requires { InRange g }
    ensures { Puts out.old at (rest_bytes g n (edited_fields g o)) out.new result }
{
    let a = put_shared(out, at);
    let name = struct_text(g.lengths, g.root);
    let b = put_version(out, a, name, n);
    let c = put_all(out, b, g, o);
    put_stop(out, c)
}

// Puts the released record's stream.
pub(crate) fn put_released(out: &mut [u8], at: usize, g: Setting) -> usize
    requires { InRange g }
    ensures { Puts out.old at (stream_of (released_commands g)) out.new result }
{
    let release = was_text(g.releases);
    let a = put_start(out, at, release, g.generation);
    let b = put_spare(out, a, g);
    put_rest(out, b, g, g.generation, Outcome::ConstantGone)
}

// Puts the current record's stream.
pub(crate) fn put_current(out: &mut [u8], at: usize, g: Setting, o: Outcome) -> usize
    requires { InRange g }
    ensures { Puts out.old at (stream_of (current_commands g o)) out.new result }
{
    let release = now_text(g.releases);
    let n = number_now(g, o);
    let a = put_start(out, at, release, n);
    let b = put_spare_now(out, a, g, o);
    put_rest(out, b, g, n, o)
}
