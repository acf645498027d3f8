// The pass over the releases of the two records: the copy's is the earlier one, compared as numbers.
ghost use Rattle.std.specs.Prelude.{◌≡◌};
ghost use Rattle.record.specs.Release.{release_parts, first_naming};
ghost use Rattle.record.specs.Stretch.{text_of};
ghost use Rattle.record.specs.Lists.{opt_of};
ghost use Rattle.record.specs.Base.{Str};
ghost use Rattle.definition.specs.ReleaseOrder.{check_earlier, check_release_order};
ghost use Rattle.verdicts.specs.Meaning.{meaning};

use record::release::{Release, earlier, release_parts};
use record::text::{Text, bytes_of};
use verdicts::verdict::Verdict;

// The release in which a schema first names its own: a copy without one is older.
fn first_naming() -> Release
    ensures { result ≡ first_naming }
{
    Release {
        major: 0,
        minor: 8,
        patch: 0,
    }
}

// The copy's release against the current one, whose numbers are known.
fn check_earlier(
    pool: &[u8],
    old_pool: &[u8],
    current: Text,
    is: Release,
    was: Text,
) -> Result<(), Verdict>
    ensures { let p : Str = pool.now in
        let q : Str = old_pool.now in
        meaning p q result ≡ check_earlier (text_of p current) is (text_of q was) (release_parts (text_of q was)) }
{
    let Some(then) = release_parts(bytes_of(old_pool, was)) else {
        return Err(Verdict::WasUnreadable { was });
    };
    if earlier(then, is) {
        return Ok(());
    }
    Err(Verdict::NotLater { was, current })
}

// The current record's release, and the copy's if it names one.
pub fn check_release_order(
    pool: &[u8],
    old_pool: &[u8],
    current: Text,
    copy: Option<Text>,
) -> Result<(), Verdict>
    ensures { let p : Str = pool.now in
        let q : Str = old_pool.now in
        meaning p q result ≡ check_release_order (text_of p current) (opt_of q copy) }
{
    let Some(is) = release_parts(bytes_of(pool, current)) else {
        return Err(Verdict::NowUnreadable { current });
    };
    if let Some(was) = copy {
        return check_earlier(pool, old_pool, current, is, was);
    }
    if earlier(is, first_naming()) {
        return Err(Verdict::BeforeNaming { current });
    }
    Ok(())
}
