// The owner call: who owns a name of a current record.
ghost use Rattle.std.specs.Prelude.{◌≡◌};
ghost use Rattle.record.specs.Scalars.{built_in};
ghost use Rattle.record.specs.Reading.{Rec, rec};
ghost use Rattle.layout.specs.OwnerCall.{owner_fields, OwnerAsked};

use record::ownership::owner_of;
use record::read::read_record;
use record::refusal::{Refusal, Side};
use record::scalars::built_in;
use record::text::Text;

// The owner's name, as the stretch that the root's own command gives; or none; or the record's refusal with its place.
pub type OwnerAnswer = Result<Option<Text>, (Refusal, usize)>;

// The owner's answer as numbers; what has no meaning is 0.
#[repr(C)]
#[derive(Clone, Copy)]
pub struct OwnerFields {
    pub number: u32,
    pub place: usize,
    pub owned: u32,
    pub start: u32,
    pub len: u32,
}

impl From<OwnerAnswer> for OwnerFields {
    fn from(answer: OwnerAnswer) -> Self
        ensures { result ≡ owner_fields answer }
    {
        match answer {
            Ok(None) => OwnerFields {
                number: 0,
                place: 0,
                owned: 0,
                start: 0,
                len: 0,
            },
            Ok(Some(t)) => OwnerFields {
                number: 0,
                place: 0,
                owned: 1,
                start: u32::from(t.start),
                len: u32::from(t.len),
            },
            Err((refusal, place)) => OwnerFields {
                number: refusal.number(),
                place,
                owned: 0,
                start: 0,
                len: 0,
            },
        }
    }
}

// The owner of a name, which is not shortened at "::".
pub fn ask_owner(stream: &[u8], pool: &[u8], name: &[u8]) -> OwnerAnswer
    ensures { let cur : Rec = rec stream.now pool.now built_in in
        OwnerAsked cur name.now result }
{
    let rows = built_in();
    read_record(Side::Current, &rows, stream, pool)?;
    Ok(owner_of(stream, pool, name))
}
