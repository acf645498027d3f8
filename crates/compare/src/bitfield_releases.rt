// The pass over the releases of bit fields: what is new arrives in this release, and what shipped keeps the release it arrived in.
ghost use Rattle.std.specs.Prelude.{◌≡◌};
ghost use Rattle.record.specs.Stretch.{text_of};
ghost use Rattle.record.specs.Lists.{opt_of, bitfield_of, member_of};
ghost use Rattle.record.specs.Steps.{members_at, bitfield_found};
ghost use Rattle.record.specs.Reading.{Rec};
ghost use Rattle.record.specs.Base.{Str};
ghost use Rattle.definition.specs.Pass.{required};
ghost use Rattle.verdicts.specs.Arguments.{item_of};
ghost use Rattle.definition.specs.BitfieldReleases.{member_release, check_arrived, check_member_arrived, check_members_arrived};
ghost use Rattle.definition.specs.BitfieldReleases.{check_bitfield_arrived, check_bitfield_releases};
ghost use Rattle.compare.specs.Shipped.{shipped_of};
ghost use Rattle.compare.specs.Sought.{BitfieldShipped};
ghost use Rattle.compare.specs.Catalog.{read};
ghost use Rattle.compare.specs.Records.{bitfield_list};
ghost use Rattle.verdicts.specs.Meaning.{meaning};

use crate::catalog::Record;
use crate::required::required_text;
use crate::shipped::{Shipped, shipped_with};
use record::command::{Bitfield, Cursor, Member, Step};
use record::dates::member_release;
use record::lists::{find, next};
use record::text::{Text, bytes_of, same};
use verdicts::arguments::Item;
use verdicts::verdict::Verdict;

// What the copy says of a bit field.
fn bitfield_shipped(was: Step<Bitfield>) -> Shipped
    ensures { BitfieldShipped was result }
{
    let Some((b, _)) = was else {
        return Shipped::Absent;
    };
    shipped_with(b.first_release)
}

// What the copy says of a member of a bit field.
fn member_shipped(released: &Record, was: Step<Bitfield>, name: &[u8]) -> Shipped
    ensures { let rel : Rec = read released.now in
        shipped_of rel.pool result ≡ member_release (bitfield_found rel.stream rel.pool was) name.now }
{
    let Some((b, from)) = was else {
        return Shipped::Absent;
    };
    let Some((m, _)) = find::<Member>(released.stream, released.pool, from, name) else {
        return Shipped::Absent;
    };
    shipped_with(member_release(m.first_release, b.first_release))
}

// What there is now, with its release, against what the copy says of it.
fn check_arrived(
    pool: &[u8],
    old_pool: &[u8],
    shipping: Text,
    what: Item,
    release: Text,
    shipped: Shipped,
) -> Result<(), Verdict>
    ensures { let p : Str = pool.now in
        let q : Str = old_pool.now in
        meaning p q result ≡ check_arrived (text_of p shipping) (item_of p what) (text_of p release) (shipped_of q shipped) }
{
    match shipped {
        Shipped::Absent => {
            if same(bytes_of(pool, release), bytes_of(pool, shipping)) {
                return Ok(());
            }
            Err(Verdict::BitsLate {
                what,
                current: shipping,
                release,
            })
        }
        Shipped::Named(was) => {
            if same(bytes_of(pool, release), bytes_of(old_pool, was)) {
                return Ok(());
            }
            Err(Verdict::BitsRedated { what, was, release })
        }
        Shipped::Unstated => Ok(()),
    }
}

// One member of a bit field, whose name and release are given, against what the bit field was.
fn check_member_arrived(
    pool: &[u8],
    released: &Record,
    shipping: Text,
    owner: Text,
    since: Option<Text>,
    was: Step<Bitfield>,
    m: Member,
) -> Result<(), Verdict>
    ensures { let p : Str = pool.now in
        let rel : Rec = read released.now in
        meaning p rel.pool result
        ≡ check_member_arrived (text_of p shipping) (text_of p owner) (required (opt_of p since)) (bitfield_found rel.stream rel.pool was)
        (member_of p m) }
{
    let name = m.name;
    let release = required_text(member_release(m.first_release, since));
    let shipped = member_shipped(released, was, bytes_of(pool, name));
    check_arrived(
        pool,
        released.pool,
        shipping,
        Item::Within(owner, name),
        release,
        shipped,
    )
}

// The members of a bit field from a cursor on.
fn check_members_arrived(
    current: &Record,
    released: &Record,
    shipping: Text,
    owner: Text,
    since: Option<Text>,
    was: Step<Bitfield>,
    from: Cursor,
) -> Result<(), Verdict>
    ensures { let cur : Rec = read current.now in
        let rel : Rec = read released.now in
        meaning cur.pool rel.pool result
        ≡ check_members_arrived (text_of cur.pool shipping) (text_of cur.pool owner) (required (opt_of cur.pool since))
        (bitfield_found rel.stream rel.pool was) (members_at cur.stream cur.pool from.at) }
{
    let mut cursor = from;
    while let Some((m, after)) = next::<Member>(current.stream, cursor) {
        check_member_arrived(current.pool, released, shipping, owner, since, was, m)?;
        cursor = after;
    }
    Ok(())
}

// One current bit field, whose members begin at a cursor.
fn check_bitfield_arrived(
    current: &Record,
    released: &Record,
    shipping: Text,
    is: Bitfield,
    from: Cursor,
) -> Result<(), Verdict>
    ensures { let cur : Rec = read current.now in
        let rel : Rec = read released.now in
        meaning cur.pool rel.pool result ≡ check_bitfield_arrived (text_of cur.pool shipping) (bitfield_list rel)
        (bitfield_of cur.pool is (members_at cur.stream cur.pool from.at)) }
{
    let name = is.name;
    let since = is.first_release;
    let was = find::<Bitfield>(
        released.stream,
        released.pool,
        Cursor::new(),
        bytes_of(current.pool, name),
    );
    let release = required_text(since);
    let shipped = bitfield_shipped(was);
    check_arrived(
        current.pool,
        released.pool,
        shipping,
        Item::Bitfield(name),
        release,
        shipped,
    )?;
    check_members_arrived(current, released, shipping, name, since, was, from)
}

// The first bit field or member whose release is not the one that it arrived in.
pub fn check_bitfield_releases(
    current: &Record,
    released: &Record,
    shipping: Text,
) -> Result<(), Verdict>
    ensures { let cur : Rec = read current.now in
        let rel : Rec = read released.now in
        meaning cur.pool rel.pool result ≡ check_bitfield_releases (text_of cur.pool shipping) (bitfield_list cur) (bitfield_list rel) }
{
    let mut cursor = Cursor::new();
    while let Some((is, after)) = next::<Bitfield>(current.stream, cursor) {
        check_bitfield_arrived(current, released, shipping, is, after)?;
        cursor = after;
    }
    Ok(())
}
