// The load call of 02, W-213.
ghost use Rattle.std.specs.Prelude.{◌≡◌, [], ◌≤◌, length};
ghost use Rattle.record.specs.Write.{Puts};
ghost use Rattle.layout.specs.Answer.{Answered, text_or};
ghost use Rattle.load.specs.Pool.{pool};
ghost use Rattle.load.specs.Commands.{w4};
ghost use Rattle.load.specs.Range.{InRange};
ghost use Rattle.load.specs.Generator.{released_commands, current_commands, stream_of};
ghost use Rattle.load.specs.Load.{part, pair_of, load};
ghost use Rattle.load.specs.Bytes.{parts_of};

use crate::outcomes::Outcome;
use crate::settings::{Setting, draw_setting};
use crate::streams::{put_current, put_released};
use layout::answer::Answer;
use record::writer::put;

// How long the two streams are.
fn released_len(g: Setting) -> usize
    requires { InRange g }
    ensures { (result ≡ length (stream_of (released_commands g))) × (result ≤ 32768) }
{
    let mut none = [0u8; 1];
    put_released(&mut none, 0, g)
}

fn current_len(g: Setting, o: Outcome) -> usize
    requires { InRange g }
    ensures { (result ≡ length (stream_of (current_commands g o))) × (result ≤ 32768) }
{
    let mut none = [0u8; 1];
    put_current(&mut none, 0, g, o)
}

// Puts a part's length.
fn put_len(out: &mut [u8], at: usize, n: usize) -> usize
    requires { n ≤ 32768 }
    ensures { Puts out.old at (w4 n []) out.new result }
{
    put(out, at, &(n as u32).to_le_bytes())
}

// Puts the pool as a part.
fn put_pool(out: &mut [u8], at: usize) -> usize
    ensures { Puts out.old at (part pool) out.new result }
{
    let next = put_len(out, at, 971);
    put(
        out,
        next,
        b"s00stage_originss01optics_state_s02tile_table_hds03plate_barcodes04lamp_schedules05focus_profile\
            s06camera_setup_s07run_statisticf00exposure_timef01gain_setting_f02well_row_markf03well_col_mark\
            f04lens_positionf05filter_selectf06lamp_intensitf07encoder_ticksf08tile_checksumf09overlap_width\
            f10stitch_offsetf11operator_notef12serial_numberf13firmware_hashf14temperature_cf15pressure_mbar\
            f16humidity_percf17spare_byte_inf18spare_byte_at\
            scalar..............enum................type_alias..........bitfield............\
            inline_array........inline_array2d......cstr_ptr............struct_ptr..........\
            struct_array_ptr....struct_ptr_array_ptrtagged_fam_ptr......simple_fam_ptr......\
            opaque_ptr..........fn_ptr..............padding.............string..............\
            0.8.00.9.00.10.01.0.01.9.91.10.0metadataruntimeinfoGENERATIONTILE_LIMITPLUGIN_API\
            VENDORmenqachutickswellfilterdarkdapifitcmodeidlescanfaultflagslampzoomframetaglen\
            seqAgaingapBposlegacysortsizeoldCtxtplaterowu8u16u32char",
    )
}

// Puts a record as two parts; n is its stream's length.
fn put_current_parts(out: &mut [u8], at: usize, g: Setting, o: Outcome, n: usize) -> usize
    requires { InRange g × (n ≡ length (stream_of (current_commands g o))) × (n ≤ 32768) }
    ensures { Puts out.old at (parts_of (stream_of (current_commands g o))) out.new result }
{
    let a = put_len(out, at, n);
    let b = put_current(out, a, g, o);
    put_pool(out, b)
}

fn put_released_parts(out: &mut [u8], at: usize, g: Setting, n: usize) -> usize
    requires { InRange g × (n ≡ length (stream_of (released_commands g))) × (n ≤ 32768) }
    ensures { Puts out.old at (parts_of (stream_of (released_commands g))) out.new result }
{
    let a = put_len(out, at, n);
    let b = put_released(out, a, g);
    put_pool(out, b)
}

// Writes the pair of a seed, if it fits.
fn write_pair(out: &mut [u8], seed: u32, o: Outcome) -> Answer
    ensures { Answered out.old out.new (text_or (length out.old) 0 (pair_of seed o)) result }
{
    let g = draw_setting(seed);
    let n = current_len(g, o);
    let m = released_len(g);
    let len = n + m + 1958;
    if out.len() < len {
        return Answer {
            number: 10,
            side: 0,
            place: 0,
            len,
        };
    }
    let next = put_current_parts(out, 0, g, o, n);
    put_released_parts(out, next, g, m);
    Answer {
        number: 0,
        side: 0,
        place: 0,
        len,
    }
}

// A pair of records by the outcome's number and the seed.
pub fn load(outcome: u32, seed: u32, out: &mut [u8]) -> Answer
    ensures { Answered out.old out.new (load (length out.old) outcome seed) result }
{
    let unfit = Answer {
        number: 61,
        side: 0,
        place: 0,
        len: 0,
    };
    if 2147483647 < seed {
        return unfit;
    }
    match Outcome::numbered(outcome) {
        Some(o) => write_pair(out, seed, o),
        None => unfit,
    }
}
