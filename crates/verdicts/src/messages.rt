// The messages of the verdicts, written from their templates: a byte below 32 is the number of an argument. Written by tools/verdicts.py.
ghost use Rattle.record.specs.Base.{Str};
ghost use Rattle.record.specs.Stretch.{text_of};
ghost use Rattle.record.specs.Lists.{opt_of};
ghost use Rattle.record.specs.Describe.{described_as};
ghost use Rattle.layout.specs.Names.{name_of};
ghost use Rattle.definition.specs.Constants.{constant_text};
ghost use Rattle.verdicts.specs.Arguments.{item_of, value_meant};
ghost use Rattle.definition.specs.Verdicts as D;
ghost use Rattle.definition.specs.Verdicts.{message_of, described, now_unreadable, before_naming, was_unreadable, not_later, value_undated, late, redated, backdated, constant_gone, constant_changed, enum_gone, renumbered, renamed, value_gone, bit_field_gone, member_renamed, member_gone, bit_moved, width_changed, bits_late, bits_redated, type_gone, field_gone, moved, resized, redescribed, standing_changed, shipped_family_changed, uncovered, no_constant, no_generation, unraised, unlisted, leapt, fell};
ghost use Rattle.verdicts.specs.Template.{Writes};
ghost use Rattle.verdicts.specs.Meaning.{violation, meaning};

use crate::arguments::{ConstantValue, Item};
use crate::template::{Arg, write, write_four, write_one, write_three, write_two};
use crate::verdict::Verdict;
use layout::names::TypeName;
use record::describe::Description;
use record::text::Text;

// 11
fn write_described(out: &mut [u8], pool: &[u8], old: &[u8]) -> Result<usize, usize>
    ensures { let said : D.Verdict = described in
        Writes out.old (message_of said) out.new result }
{
    write(
        out,
        b"the released schema says unreleased and describes a layout - one release has shipped or none has",
        [Arg::Nothing; 5],
        pool,
        old,
    )
}

// 12
fn write_now_unreadable(
    out: &mut [u8],
    current: Text,
    pool: &[u8],
    old: &[u8],
) -> Result<usize, usize>
    ensures { let pool : Str = pool.entry.now in
        let said : D.Verdict = now_unreadable (text_of pool current) in
        Writes out.old (message_of said) out.new result }
{
    write_one(
        out,
        b"[schema] firmware_release is '\x00', which is not a firmware release like 0.8.0",
        Arg::Now(current),
        pool,
        old,
    )
}

// 13
fn write_before_naming(
    out: &mut [u8],
    current: Text,
    pool: &[u8],
    old: &[u8],
) -> Result<usize, usize>
    ensures { let pool : Str = pool.entry.now in
        let said : D.Verdict = before_naming (text_of pool current) in
        Writes out.old (message_of said) out.new result }
{
    write_one(
        out,
        b"the released schema names no firmware_release, so it was taken before 0.8.0, and this schema says \x00",
        Arg::Now(current),
        pool,
        old,
    )
}

// 14
fn write_was_unreadable(out: &mut [u8], was: Text, pool: &[u8], old: &[u8]) -> Result<usize, usize>
    ensures { let old : Str = old.entry.now in
        let said : D.Verdict = was_unreadable (text_of old was) in
        Writes out.old (message_of said) out.new result }
{
    write_one(
        out,
        b"the released schema's firmware_release is '\x00', which is not a firmware release like 0.8.0",
        Arg::Was(was),
        pool,
        old,
    )
}

// 15
fn write_not_later(
    out: &mut [u8],
    was: Text,
    current: Text,
    pool: &[u8],
    old: &[u8],
) -> Result<usize, usize>
    ensures { let pool : Str = pool.entry.now in
        let old : Str = old.entry.now in
        let said : D.Verdict = not_later (text_of old was) (text_of pool current) in
        Writes out.old (message_of said) out.new result }
{
    write_two(
        out,
        b"the released schema names \x00 and this schema names \x01, so there is no released layout to compare against - raise [schema] firmware_release, or refresh the copy with ci/update-released-schema.sh",
        Arg::Was(was),
        Arg::Now(current),
        pool,
        old,
    )
}

// 16
fn write_value_undated(
    out: &mut [u8],
    owner: Text,
    name: Text,
    current: Text,
    release: Text,
    pool: &[u8],
    old: &[u8],
) -> Result<usize, usize>
    ensures { let pool : Str = pool.entry.now in
        let said : D.Verdict = value_undated (text_of pool owner) (text_of pool name) (text_of pool current) (text_of pool release) in
        Writes out.old (message_of said) out.new result }
{
    write_four(
        out,
        b"\x00::\x01 is not in the copy of the last release, so it reaches the plugin API in \x02 - it declares no first_release, and \x00's is \x03",
        Arg::Now(owner),
        Arg::Now(name),
        Arg::Now(current),
        Arg::Now(release),
        pool,
        old,
    )
}

// 17
fn write_late(
    out: &mut [u8],
    what: Item,
    current: Text,
    names: Text,
    pool: &[u8],
    old: &[u8],
) -> Result<usize, usize>
    ensures { let pool : Str = pool.entry.now in
        let said : D.Verdict = late (item_of pool what) (text_of pool current) (text_of pool names) in
        Writes out.old (message_of said) out.new result }
{
    write_three(
        out,
        b"\x00 is not in the copy of the last release, so it reaches the plugin API in \x01 - its first_release says \x02",
        Arg::NowItem(what),
        Arg::Now(current),
        Arg::Now(names),
        pool,
        old,
    )
}

// 18
fn write_redated(
    out: &mut [u8],
    what: Item,
    was: Text,
    names: Text,
    pool: &[u8],
    old: &[u8],
) -> Result<usize, usize>
    ensures { let pool : Str = pool.entry.now in
        let old : Str = old.entry.now in
        let said : D.Verdict = redated (item_of pool what) (text_of old was) (text_of pool names) in
        Writes out.old (message_of said) out.new result }
{
    write_three(
        out,
        b"\x00 named \x01 in the last release and names \x02 now - the release something reached the plugin API in is a fact about firmware already shipped, and a plugin built against it set its min_fw_version from that",
        Arg::NowItem(what),
        Arg::Was(was),
        Arg::Now(names),
        pool,
        old,
    )
}

// 19
fn write_backdated(
    out: &mut [u8],
    what: Item,
    copy: Option<Text>,
    current: Text,
    pool: &[u8],
    old: &[u8],
) -> Result<usize, usize>
    ensures { let pool : Str = pool.entry.now in
        let old : Str = old.entry.now in
        let said : D.Verdict = backdated (item_of pool what) (opt_of old copy) (text_of pool current) in
        Writes out.old (message_of said) out.new result }
{
    write_three(
        out,
        b"\x00 was already in the plugin API of \x01 and names \x02, the release under development - it reached the plugin API before that, and the copy says no more of it than that it was there",
        Arg::NowItem(what),
        Arg::WasCopy(copy),
        Arg::Now(current),
        pool,
        old,
    )
}

// 20
fn write_constant_gone(out: &mut [u8], name: Text, pool: &[u8], old: &[u8]) -> Result<usize, usize>
    ensures { let old : Str = old.entry.now in
        let said : D.Verdict = constant_gone (text_of old name) in
        Writes out.old (message_of said) out.new result }
{
    write_one(
        out,
        b"constant \x00 was in the last release and is gone - the firmware, its plugins and every host built against it name it still, so a constant is deprecated with deprecated_release rather than removed",
        Arg::Was(name),
        pool,
        old,
    )
}

// 21
fn write_constant_changed(
    out: &mut [u8],
    name: Text,
    was: ConstantValue,
    is: ConstantValue,
    pool: &[u8],
    old: &[u8],
) -> Result<usize, usize>
    ensures { let pool : Str = pool.entry.now in
        let old : Str = old.entry.now in
        let said : D.Verdict = constant_changed (text_of old name) (constant_text (value_meant old was)) (constant_text (value_meant pool is)) in
        Writes out.old (message_of said) out.new result }
{
    write_three(
        out,
        b"constant \x00 was \x01 in the last release and is \x02 now - a constant is a value the firmware, its plugins and every host agree on, and none of them rebuilds because this file changed",
        Arg::Was(name),
        Arg::WasValue(was),
        Arg::NowValue(is),
        pool,
        old,
    )
}

// 22
fn write_enum_gone(out: &mut [u8], name: Text, pool: &[u8], old: &[u8]) -> Result<usize, usize>
    ensures { let old : Str = old.entry.now in
        let said : D.Verdict = enum_gone (text_of old name) in
        Writes out.old (message_of said) out.new result }
{
    write_one(
        out,
        b"enum \x00 was in the last release and is gone - devices and hosts hold its values still",
        Arg::Was(name),
        pool,
        old,
    )
}

// 23
fn write_renumbered(
    out: &mut [u8],
    owner: Text,
    name: Text,
    was: u64,
    is: u64,
    pool: &[u8],
    old: &[u8],
) -> Result<usize, usize>
    ensures { let old : Str = old.entry.now in
        let said : D.Verdict = renumbered (text_of old owner) (text_of old name) was is in
        Writes out.old (message_of said) out.new result }
{
    write_four(
        out,
        b"\x00::\x01 was \x02 in the last release and is \x03 now - a released value keeps its number, because devices and hosts hold it",
        Arg::Was(owner),
        Arg::Was(name),
        Arg::Signed(was),
        Arg::Signed(is),
        pool,
        old,
    )
}

// 24
fn write_renamed(
    out: &mut [u8],
    owner: Text,
    name: Text,
    is: Text,
    pool: &[u8],
    old: &[u8],
) -> Result<usize, usize>
    ensures { let pool : Str = pool.entry.now in
        let old : Str = old.entry.now in
        let said : D.Verdict = renamed (text_of old owner) (text_of old name) (text_of pool is) in
        Writes out.old (message_of said) out.new result }
{
    write_three(
        out,
        b"\x00::\x01 is called \x02 now - a released value keeps its name, and an alias gives it another",
        Arg::Was(owner),
        Arg::Was(name),
        Arg::Now(is),
        pool,
        old,
    )
}

// 25
fn write_value_gone(
    out: &mut [u8],
    owner: Text,
    name: Text,
    pool: &[u8],
    old: &[u8],
) -> Result<usize, usize>
    ensures { let old : Str = old.entry.now in
        let said : D.Verdict = value_gone (text_of old owner) (text_of old name) in
        Writes out.old (message_of said) out.new result }
{
    write_two(
        out,
        b"\x00::\x01 was in the last release and is gone - a released value is deprecated with deprecated_release rather than removed",
        Arg::Was(owner),
        Arg::Was(name),
        pool,
        old,
    )
}

// 26
fn write_bit_field_gone(out: &mut [u8], name: Text, pool: &[u8], old: &[u8]) -> Result<usize, usize>
    ensures { let old : Str = old.entry.now in
        let said : D.Verdict = bit_field_gone (text_of old name) in
        Writes out.old (message_of said) out.new result }
{
    write_one(
        out,
        b"bit field \x00 was in the last release and is gone - hosts read its bits still",
        Arg::Was(name),
        pool,
        old,
    )
}

// 27
fn write_member_renamed(
    out: &mut [u8],
    owner: Text,
    name: Text,
    is: Text,
    pool: &[u8],
    old: &[u8],
) -> Result<usize, usize>
    ensures { let pool : Str = pool.entry.now in
        let old : Str = old.entry.now in
        let said : D.Verdict = member_renamed (text_of old owner) (text_of old name) (text_of pool is) in
        Writes out.old (message_of said) out.new result }
{
    write_three(
        out,
        b"\x00::\x01 is called \x02 now - a released member keeps its name",
        Arg::Was(owner),
        Arg::Was(name),
        Arg::Now(is),
        pool,
        old,
    )
}

// 28
fn write_member_gone(
    out: &mut [u8],
    owner: Text,
    name: Text,
    pool: &[u8],
    old: &[u8],
) -> Result<usize, usize>
    ensures { let old : Str = old.entry.now in
        let said : D.Verdict = member_gone (text_of old owner) (text_of old name) in
        Writes out.old (message_of said) out.new result }
{
    write_two(
        out,
        b"\x00::\x01 was in the last release and is gone - a released member is deprecated with deprecated_release rather than removed",
        Arg::Was(owner),
        Arg::Was(name),
        pool,
        old,
    )
}

// 29
fn write_bit_moved(
    out: &mut [u8],
    owner: Text,
    name: Text,
    was: u32,
    is: u32,
    pool: &[u8],
    old: &[u8],
) -> Result<usize, usize>
    ensures { let old : Str = old.entry.now in
        let said : D.Verdict = bit_moved (text_of old owner) (text_of old name) was is in
        Writes out.old (message_of said) out.new result }
{
    write_four(
        out,
        b"\x00::\x01 was at bit \x02 in the last release and is at bit \x03 now - a released member keeps its bits, because hosts read them there",
        Arg::Was(owner),
        Arg::Was(name),
        Arg::Number(was as u64),
        Arg::Number(is as u64),
        pool,
        old,
    )
}

// 30
fn write_width_changed(
    out: &mut [u8],
    owner: Text,
    name: Text,
    was: u32,
    is: u32,
    pool: &[u8],
    old: &[u8],
) -> Result<usize, usize>
    ensures { let old : Str = old.entry.now in
        let said : D.Verdict = width_changed (text_of old owner) (text_of old name) was is in
        Writes out.old (message_of said) out.new result }
{
    write_four(
        out,
        b"\x00::\x01 was \x02 bit(s) wide in the last release and is \x03 now - a released member keeps its bits, because hosts read them there",
        Arg::Was(owner),
        Arg::Was(name),
        Arg::Number(was as u64),
        Arg::Number(is as u64),
        pool,
        old,
    )
}

// 31
fn write_bits_late(
    out: &mut [u8],
    what: Item,
    current: Text,
    release: Text,
    pool: &[u8],
    old: &[u8],
) -> Result<usize, usize>
    ensures { let pool : Str = pool.entry.now in
        let said : D.Verdict = bits_late (item_of pool what) (text_of pool current) (text_of pool release) in
        Writes out.old (message_of said) out.new result }
{
    write_three(
        out,
        b"\x00 is not in the copy of the last release, so it arrives in \x01, and its release is \x02",
        Arg::NowItem(what),
        Arg::Now(current),
        Arg::Now(release),
        pool,
        old,
    )
}

// 32
fn write_bits_redated(
    out: &mut [u8],
    what: Item,
    was: Text,
    release: Text,
    pool: &[u8],
    old: &[u8],
) -> Result<usize, usize>
    ensures { let pool : Str = pool.entry.now in
        let old : Str = old.entry.now in
        let said : D.Verdict = bits_redated (item_of pool what) (text_of old was) (text_of pool release) in
        Writes out.old (message_of said) out.new result }
{
    write_three(
        out,
        b"\x00 arrived in \x01 according to the last release, not \x02 - the release something arrived in is a fact about firmware already shipped",
        Arg::NowItem(what),
        Arg::Was(was),
        Arg::Now(release),
        pool,
        old,
    )
}

// 33
fn write_type_gone(out: &mut [u8], name: TypeName, pool: &[u8], old: &[u8]) -> Result<usize, usize>
    ensures { let old : Str = old.entry.now in
        let said : D.Verdict = type_gone (name_of old name) in
        Writes out.old (message_of said) out.new result }
{
    write_one(
        out,
        b"\x00 was in the last release and is no longer described - a shipped structure's bytes stay where a host that knows them can read them",
        Arg::WasType(name),
        pool,
        old,
    )
}

// 34
fn write_field_gone(
    out: &mut [u8],
    owner: TypeName,
    name: Text,
    pool: &[u8],
    old: &[u8],
) -> Result<usize, usize>
    ensures { let old : Str = old.entry.now in
        let said : D.Verdict = field_gone (name_of old owner) (text_of old name) in
        Writes out.old (message_of said) out.new result }
{
    write_two(
        out,
        b"\x00.\x01 was in the last release and is gone - a shipped field is never moved, renamed or removed, only deprecated",
        Arg::WasType(owner),
        Arg::Was(name),
        pool,
        old,
    )
}

// 35
fn write_moved(
    out: &mut [u8],
    owner: TypeName,
    name: Text,
    was: u64,
    is: u64,
    pool: &[u8],
    old: &[u8],
) -> Result<usize, usize>
    ensures { let old : Str = old.entry.now in
        let said : D.Verdict = moved (name_of old owner) (text_of old name) was is in
        Writes out.old (message_of said) out.new result }
{
    write_four(
        out,
        b"\x00.\x01 was at offset \x02 in the last release and is at \x03 now - a shipped field's bytes stay where they are",
        Arg::WasType(owner),
        Arg::Was(name),
        Arg::Number(was),
        Arg::Number(is),
        pool,
        old,
    )
}

// 36
fn write_resized(
    out: &mut [u8],
    owner: TypeName,
    name: Text,
    was: u64,
    is: u64,
    pool: &[u8],
    old: &[u8],
) -> Result<usize, usize>
    ensures { let old : Str = old.entry.now in
        let said : D.Verdict = resized (name_of old owner) (text_of old name) was is in
        Writes out.old (message_of said) out.new result }
{
    write_four(
        out,
        b"\x00.\x01 was \x02 byte(s) in the last release and is \x03 now - a shipped field's bytes stay where they are",
        Arg::WasType(owner),
        Arg::Was(name),
        Arg::Number(was),
        Arg::Number(is),
        pool,
        old,
    )
}

// 37
fn write_redescribed(
    out: &mut [u8],
    owner: TypeName,
    name: Text,
    was: Description,
    is: Description,
    pool: &[u8],
    old: &[u8],
) -> Result<usize, usize>
    ensures { let pool : Str = pool.entry.now in
        let old : Str = old.entry.now in
        let said : D.Verdict = redescribed (name_of old owner) (text_of old name) (described_as old was) (described_as pool is) in
        Writes out.old (message_of said) out.new result }
{
    write_four(
        out,
        b"\x00.\x01 was \x02 in the last release and is \x03 now - a shipped field is read the way it was written",
        Arg::WasType(owner),
        Arg::Was(name),
        Arg::WasShape(was),
        Arg::NowShape(is),
        pool,
        old,
    )
}

// 38
fn write_standing_changed(
    out: &mut [u8],
    name: Text,
    was: bool,
    is: bool,
    pool: &[u8],
    old: &[u8],
) -> Result<usize, usize>
    ensures { let pool : Str = pool.entry.now in
        let said : D.Verdict = standing_changed (text_of pool name) was is in
        Writes out.old (message_of said) out.new result }
{
    write_three(
        out,
        b"\x00 was \x01 in the last release and is \x02 now - whether a family is standalone decides which rule its changes answer to",
        Arg::Now(name),
        Arg::Standing(was),
        Arg::Standing(is),
        pool,
        old,
    )
}

// 39
fn write_shipped_family_changed(
    out: &mut [u8],
    name: TypeName,
    change: Option<Text>,
    pool: &[u8],
    old: &[u8],
) -> Result<usize, usize>
    ensures { let pool : Str = pool.entry.now in
        let said : D.Verdict = shipped_family_changed (name_of pool name) (opt_of pool change) in
        Writes out.old (message_of said) out.new result }
{
    write_two(
        out,
        b"\x00 has \x01 since the last release, and its family is standalone - a shipped variant never changes, because a reader built against it reads its fields at fixed offsets",
        Arg::NowType(name),
        Arg::NowChange(change),
        pool,
        old,
    )
}

// 40
fn write_uncovered(out: &mut [u8], name: TypeName, pool: &[u8], old: &[u8]) -> Result<usize, usize>
    ensures { let pool : Str = pool.entry.now in
        let said : D.Verdict = uncovered (name_of pool name) in
        Writes out.old (message_of said) out.new result }
{
    write_one(
        out,
        b"\x00's layout has changed since the last release, and it sits under none of the versioned structures, so no generation number covers it",
        Arg::NowType(name),
        pool,
        old,
    )
}

// 41
fn write_no_constant(out: &mut [u8], name: Text, pool: &[u8], old: &[u8]) -> Result<usize, usize>
    ensures { let pool : Str = pool.entry.now in
        let said : D.Verdict = no_constant (text_of pool name) in
        Writes out.old (message_of said) out.new result }
{
    write_one(
        out,
        b"\x00 carries a generation number and names no constant holding it",
        Arg::Now(name),
        pool,
        old,
    )
}

// 42
fn write_no_generation(
    out: &mut [u8],
    constant: Text,
    was: u64,
    pool: &[u8],
    old: &[u8],
) -> Result<usize, usize>
    ensures { let pool : Str = pool.entry.now in
        let said : D.Verdict = no_generation (text_of pool constant) was in
        Writes out.old (message_of said) out.new result }
{
    write_two(
        out,
        b"\x00 was \x01 in the last release, which is not a generation number",
        Arg::Now(constant),
        Arg::Signed(was),
        pool,
        old,
    )
}

// 43
fn write_unraised(
    out: &mut [u8],
    name: Text,
    was: u32,
    what: TypeName,
    constant: Text,
    next: u64,
    pool: &[u8],
    old: &[u8],
) -> Result<usize, usize>
    ensures { let pool : Str = pool.entry.now in
        let said : D.Verdict = unraised (text_of pool name) was (name_of pool what) (text_of pool constant) next in
        Writes out.old (message_of said) out.new result }
{
    write(
        out,
        b"\x00 is still generation \x01, and \x02's layout has changed since the last release - raise \x03 to \x04, and add a [[versions]] entry saying which release that generation ships in",
        [
            Arg::Now(name),
            Arg::Number(was as u64),
            Arg::NowType(what),
            Arg::Now(constant),
            Arg::Number(next),
        ],
        pool,
        old,
    )
}

// 44
fn write_unlisted(
    out: &mut [u8],
    constant: Text,
    is: u32,
    name: Text,
    pool: &[u8],
    old: &[u8],
) -> Result<usize, usize>
    ensures { let pool : Str = pool.entry.now in
        let said : D.Verdict = unlisted (text_of pool constant) is (text_of pool name) in
        Writes out.old (message_of said) out.new result }
{
    write_three(
        out,
        b"\x00 was raised to \x01 with no [[versions]] entry for \x02 generation \x01 - a generation says nothing until something says which release it ships in",
        Arg::Now(constant),
        Arg::Number(is as u64),
        Arg::Now(name),
        pool,
        old,
    )
}

// 45
fn write_leapt(
    out: &mut [u8],
    constant: Text,
    was: u32,
    is: u32,
    copy: Option<Text>,
    current: Text,
    pool: &[u8],
    old: &[u8],
) -> Result<usize, usize>
    ensures { let pool : Str = pool.entry.now in
        let old : Str = old.entry.now in
        let said : D.Verdict = leapt (text_of pool constant) was is (opt_of old copy) (text_of pool current) in
        Writes out.old (message_of said) out.new result }
{
    write(
        out,
        b"\x00 was \x01 in the last release and is \x02 now - a generation rises by one per release, so that a host holding a device's bytes can name every layout in between.  The copy compared against is of \x03, and this schema is \x04 - a copy left unrefreshed across a development cycle reads as a rise of more than one, and ci/update-released-schema.sh refreshes it",
        [
            Arg::Now(constant),
            Arg::Number(was as u64),
            Arg::Number(is as u64),
            Arg::WasCopy(copy),
            Arg::Now(current),
        ],
        pool,
        old,
    )
}

// 46
fn write_fell(
    out: &mut [u8],
    constant: Text,
    was: u32,
    is: u32,
    pool: &[u8],
    old: &[u8],
) -> Result<usize, usize>
    ensures { let pool : Str = pool.entry.now in
        let said : D.Verdict = fell (text_of pool constant) was is in
        Writes out.old (message_of said) out.new result }
{
    write_three(
        out,
        b"\x00 was \x01 in the last release and is \x02 now - a generation rises by one per release, so that a host holding a device's bytes can name every layout in between",
        Arg::Now(constant),
        Arg::Number(was as u64),
        Arg::Number(is as u64),
        pool,
        old,
    )
}

// Puts the message of a violation at the front of out, if it fits.
fn write_violation(out: &mut [u8], v: Verdict, pool: &[u8], old: &[u8]) -> Result<usize, usize>
    ensures { let said : D.Verdict = violation pool.now old.now v in
        Writes out.old (message_of said) out.new result }
{
    match v {
        Verdict::Described => write_described(out, pool, old),
        Verdict::NowUnreadable { current } => write_now_unreadable(out, current, pool, old),
        Verdict::BeforeNaming { current } => write_before_naming(out, current, pool, old),
        Verdict::WasUnreadable { was } => write_was_unreadable(out, was, pool, old),
        Verdict::NotLater { was, current } => write_not_later(out, was, current, pool, old),
        Verdict::ValueUndated {
            owner,
            name,
            current,
            release,
        } => write_value_undated(out, owner, name, current, release, pool, old),
        Verdict::Late {
            what,
            current,
            names,
        } => write_late(out, what, current, names, pool, old),
        Verdict::Redated { what, was, names } => write_redated(out, what, was, names, pool, old),
        Verdict::Backdated {
            what,
            copy,
            current,
        } => write_backdated(out, what, copy, current, pool, old),
        Verdict::ConstantGone { name } => write_constant_gone(out, name, pool, old),
        Verdict::ConstantChanged { name, was, is } => write_constant_changed(
            out, name, was, is, pool, old,
        ),
        Verdict::EnumGone { name } => write_enum_gone(out, name, pool, old),
        Verdict::Renumbered {
            owner,
            name,
            was,
            is,
        } => write_renumbered(out, owner, name, was, is, pool, old),
        Verdict::Renamed { owner, name, is } => write_renamed(out, owner, name, is, pool, old),
        Verdict::ValueGone { owner, name } => write_value_gone(out, owner, name, pool, old),
        Verdict::BitFieldGone { name } => write_bit_field_gone(out, name, pool, old),
        Verdict::MemberRenamed { owner, name, is } => write_member_renamed(
            out, owner, name, is, pool, old,
        ),
        Verdict::MemberGone { owner, name } => write_member_gone(out, owner, name, pool, old),
        Verdict::BitMoved {
            owner,
            name,
            was,
            is,
        } => write_bit_moved(out, owner, name, was, is, pool, old),
        Verdict::WidthChanged {
            owner,
            name,
            was,
            is,
        } => write_width_changed(out, owner, name, was, is, pool, old),
        Verdict::BitsLate {
            what,
            current,
            release,
        } => write_bits_late(out, what, current, release, pool, old),
        Verdict::BitsRedated { what, was, release } => write_bits_redated(
            out, what, was, release, pool, old,
        ),
        Verdict::TypeGone { name } => write_type_gone(out, name, pool, old),
        Verdict::FieldGone { owner, name } => write_field_gone(out, owner, name, pool, old),
        Verdict::Moved {
            owner,
            name,
            was,
            is,
        } => write_moved(out, owner, name, was, is, pool, old),
        Verdict::Resized {
            owner,
            name,
            was,
            is,
        } => write_resized(out, owner, name, was, is, pool, old),
        Verdict::Redescribed {
            owner,
            name,
            was,
            is,
        } => write_redescribed(out, owner, name, was, is, pool, old),
        Verdict::StandingChanged { name, was, is } => write_standing_changed(
            out, name, was, is, pool, old,
        ),
        Verdict::ShippedFamilyChanged { name, change } => write_shipped_family_changed(
            out, name, change, pool, old,
        ),
        Verdict::Uncovered { name } => write_uncovered(out, name, pool, old),
        Verdict::NoConstant { name } => write_no_constant(out, name, pool, old),
        Verdict::NoGeneration { constant, was } => write_no_generation(
            out, constant, was, pool, old,
        ),
        Verdict::Unraised {
            name,
            was,
            what,
            constant,
            next,
        } => write_unraised(out, name, was, what, constant, next, pool, old),
        Verdict::Unlisted { constant, is, name } => write_unlisted(
            out, constant, is, name, pool, old,
        ),
        Verdict::Leapt {
            constant,
            was,
            is,
            copy,
            current,
        } => write_leapt(out, constant, was, is, copy, current, pool, old),
        Verdict::Fell { constant, was, is } => write_fell(out, constant, was, is, pool, old),
    }
}

// Puts the message of what a pass answers at the front of out, if it fits: none has an empty one.
pub fn write_verdict(
    out: &mut [u8],
    found: Result<(), Verdict>,
    pool: &[u8],
    old: &[u8],
) -> Result<usize, usize>
    ensures { let said : D.Verdict = meaning pool.now old.now found in
        Writes out.old (message_of said) out.new result }
{
    match found {
        Ok(_) => Ok(0),
        Err(v) => write_violation(out, v, pool, old),
    }
}
