// The pass over the bit fields: a released member keeps its name and its bits.
ghost use Rattle.std.specs.Prelude.{◌≡◌};
ghost use Rattle.record.specs.Base.{Str, or_else};
ghost use Rattle.record.specs.Stretch.{text_of};
ghost use Rattle.record.specs.Lists.{bitfield_of, member_of};
ghost use Rattle.record.specs.Schema as M;
ghost use Rattle.record.specs.Steps.{members_at};
ghost use Rattle.record.specs.Reading.{Rec};
ghost use Rattle.definition.specs.Verdicts.{member_renamed, member_gone};
ghost use Rattle.definition.specs.Pass.{on_found};
ghost use Rattle.definition.specs.Bitfields.{span_in, check_member, check_members, check_bitfield, check_bitfields};
ghost use Rattle.compare.specs.Sought.{spans_of, SpanFrom};
ghost use Rattle.compare.specs.Catalog.{read};
ghost use Rattle.compare.specs.Records.{bitfield_list};
ghost use Rattle.verdicts.specs.Meaning.{meaning};

use crate::catalog::Record;
use record::command::{Bitfield, Cursor, Member, Step};
use record::lists::{find, next};
use record::text::{Text, bytes_of};
use verdicts::verdict::Verdict;

// A member's width: one bit where none is given.
#[tactic(auto, unfolding(record::specs::Base::or_else))]
fn width(given: Option<u32>) -> u32
    ensures { result ≡ or_else given 1 }
{
    given.unwrap_or(1)
}

// Whether a member has that bit and width.
#[tactic(auto, unfolding(crate::specs::Sought::spans_of))]
fn spans(m: Member, bit: u32, wide: u32) -> bool
    ensures { result ≡ spans_of m bit wide }
{
    width(m.width) == wide && m.bit == bit
}

// The first member with that bit and width from a cursor on.
fn find_span(stream: &[u8], from: Cursor, bit: u32, wide: u32) -> Step<Member>
    ensures { SpanFrom bit wide stream.now from.at result }
{
    let mut cursor = from;
    while let Some((m, after)) = next::<Member>(stream, cursor) {
        if spans(m, bit, wide) {
            return Some((m, after));
        }
        cursor = after;
    }
    None
}

// A released member that no member has the name of now, from a cursor on: one with its bits tells the new name.
fn check_unnamed(
    stream: &[u8],
    is: Cursor,
    owner: Text,
    name: Text,
    bit: u32,
    wide: u32,
) -> Result<(), Verdict>
    ensures { (p q : Str) → meaning p q result
        ≡ on_found (span_in bit wide (members_at stream.now p is.at)) (member_gone (text_of q owner) (text_of q name))
        (λ (m : M.Member). member_renamed (text_of q owner) (text_of q name) m.name) }
{
    let Some((m, _)) = find_span(stream, is, bit, wide) else {
        return Err(Verdict::MemberGone { owner, name });
    };
    Err(Verdict::MemberRenamed {
        owner,
        name,
        is: m.name,
    })
}

// One released member against those that are now, from a cursor on.
fn check_member(
    current: &Record,
    old_pool: &[u8],
    is: Cursor,
    owner: Text,
    was: Member,
) -> Result<(), Verdict>
    ensures { let cur : Rec = read current.now in
        let q : Str = old_pool.now in
        meaning cur.pool q result ≡ check_member (text_of q owner) (members_at cur.stream cur.pool is.at) (member_of q was) }
{
    let name = was.name;
    let wide = width(was.width);
    let named = find::<Member>(current.stream, current.pool, is, bytes_of(old_pool, name));
    let Some((m, _)) = named else {
        return check_unnamed(current.stream, is, owner, name, was.bit, wide);
    };
    if m.bit != was.bit {
        return Err(Verdict::BitMoved {
            owner,
            name,
            was: was.bit,
            is: m.bit,
        });
    }
    let wide_now = width(m.width);
    if wide_now != wide {
        return Err(Verdict::WidthChanged {
            owner,
            name,
            was: wide,
            is: wide_now,
        });
    }
    Ok(())
}

// The released members from a cursor on against those that are now.
fn check_members(
    current: &Record,
    released: &Record,
    is: Cursor,
    owner: Text,
    from: Cursor,
) -> Result<(), Verdict>
    ensures { let cur : Rec = read current.now in
        let rel : Rec = read released.now in
        meaning cur.pool rel.pool result ≡ check_members (text_of rel.pool owner) (members_at cur.stream cur.pool is.at)
        (members_at rel.stream rel.pool from.at) }
{
    let mut cursor = from;
    while let Some((was, after)) = next::<Member>(released.stream, cursor) {
        check_member(current, released.pool, is, owner, was)?;
        cursor = after;
    }
    Ok(())
}

// One released bit field, whose members begin at a cursor.
fn check_bitfield(
    current: &Record,
    released: &Record,
    was: Bitfield,
    from: Cursor,
) -> Result<(), Verdict>
    ensures { let cur : Rec = read current.now in
        let rel : Rec = read released.now in
        meaning cur.pool rel.pool result
        ≡ check_bitfield (bitfield_list cur) (bitfield_of rel.pool was (members_at rel.stream rel.pool from.at)) }
{
    let name = was.name;
    let Some((_, is)) = find::<Bitfield>(
        current.stream,
        current.pool,
        Cursor::new(),
        bytes_of(released.pool, name),
    ) else {
        return Err(Verdict::BitFieldGone { name });
    };
    check_members(current, released, is, name, from)
}

// The first bit field or member of the release that does not stand as it was.
pub fn check_bitfields(current: &Record, released: &Record) -> Result<(), Verdict>
    ensures { let cur : Rec = read current.now in
        let rel : Rec = read released.now in
        meaning cur.pool rel.pool result ≡ check_bitfields (bitfield_list cur) (bitfield_list rel) }
{
    let mut cursor = Cursor::new();
    while let Some((was, after)) = next::<Bitfield>(released.stream, cursor) {
        check_bitfield(current, released, was, after)?;
        cursor = after;
    }
    Ok(())
}
