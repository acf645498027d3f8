// Both records as the passes over the types read them: each with the sizes of its fields, by one list of scalars.
ghost use Rattle.record.specs.Scalars.{scalars_of};
ghost use Rattle.record.specs.Reading.{rec};
ghost use Rattle.compare.specs.Measures.{Measures};

use crate::catalog::Record;
use layout::spots::{self, Spot, SpotCursor};

// A record with the sizes of its fields.
#[derive(Clone, Copy)]
pub struct Measured<'a, 'b> {
    pub record: Record<'a>,
    pub sizes: &'b [u64],
}

// The current record and the released one, whose fields all end within the limit.
#[derive(Clone, Copy)]
pub struct Sides<'a, 'b> {
    pub rows: &'a [u8],
    pub current: Measured<'a, 'b>,
    pub released: Measured<'a, 'b>,
    pub ghost is: { Measures (rec current.record.stream.now current.record.pool.now (scalars_of rows.now)) current.sizes.now },
    pub ghost was: { Measures (rec released.record.stream.now released.record.pool.now (scalars_of rows.now)) released.sizes.now },
}

// Both sides with their types in byte order of the names.
#[derive(Clone, Copy)]
pub struct Laid<'a, 'b> {
    pub sides: Sides<'a, 'b>,
    pub types: &'b [u32],
    pub old_types: &'b [u32],
}

impl<'a, 'b> Measured<'a, 'b> {
    ghost use Rattle.record.specs.Reading.{Rec};
    ghost use Rattle.layout.specs.Spots.{SpotsFrom};
    ghost use Rattle.compare.specs.Sides.{whole};

    // The next field from a cursor on, by these rows of scalars.
    pub fn next_spot(&self, rows: &[u8], c: SpotCursor) -> Option<(Spot, SpotCursor)>
        ensures { let r : Rec = whole rows.now self.now in
            SpotsFrom r self.now.sizes.now c result }
    {
        let r = self.record;
        spots::next_spot(rows, r.stream, r.pool, self.sizes, c)
    }
}
