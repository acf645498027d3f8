// Both records as they were read, with the releases that they give.
ghost use Rattle.record.specs.Scalars.{scalars_of};
ghost use Rattle.record.specs.Reading.{rec};
ghost use Rattle.compare.specs.Passes.{Legible, Releases};
ghost use Rattle.std.proofs.Props.{props};

use crate::catalog::Record;
use crate::shipped::Dates;

// The current record and the released one, by one list of scalars: both can be read, and the releases are theirs.
#[derive(Clone, Copy)]
pub struct Pair<'a> {
    pub rows: &'a [u8],
    pub current: Record<'a>,
    pub released: Record<'a>,
    pub dates: Dates,
    pub ghost is: { Legible (rec current.stream.now current.pool.now (scalars_of rows.now)) },
    pub ghost was: { Legible (rec released.stream.now released.pool.now (scalars_of rows.now)) },
    pub ghost releases: { Releases (rec current.stream.now current.pool.now (scalars_of rows.now))
        (rec released.stream.now released.pool.now (scalars_of rows.now)) dates.current dates.copy } by { Prim.hlevel props },
}
