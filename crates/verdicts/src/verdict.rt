// A violation with what its message names; a signed number is kept as its 64 bits. A pass answers Ok, or the first violation as its error.
// Written by tools/verdicts.py.
ghost use Rattle.std.specs.Prelude.{◌≡◌};
ghost use Rattle.verdicts.specs.Meaning.{number_for, number_found};

use crate::arguments::{ConstantValue, Item};
use layout::names::TypeName;
use record::describe::Description;
use record::text::Text;

#[derive(Clone, Copy)]
pub enum Verdict {
    Described,
    NowUnreadable {
        current: Text,
    },
    BeforeNaming {
        current: Text,
    },
    WasUnreadable {
        was: Text,
    },
    NotLater {
        was: Text,
        current: Text,
    },
    ValueUndated {
        owner: Text,
        name: Text,
        current: Text,
        release: Text,
    },
    Late {
        what: Item,
        current: Text,
        names: Text,
    },
    Redated {
        what: Item,
        was: Text,
        names: Text,
    },
    Backdated {
        what: Item,
        copy: Option<Text>,
        current: Text,
    },
    ConstantGone {
        name: Text,
    },
    ConstantChanged {
        name: Text,
        was: ConstantValue,
        is: ConstantValue,
    },
    EnumGone {
        name: Text,
    },
    Renumbered {
        owner: Text,
        name: Text,
        was: u64,
        is: u64,
    },
    Renamed {
        owner: Text,
        name: Text,
        is: Text,
    },
    ValueGone {
        owner: Text,
        name: Text,
    },
    BitFieldGone {
        name: Text,
    },
    MemberRenamed {
        owner: Text,
        name: Text,
        is: Text,
    },
    MemberGone {
        owner: Text,
        name: Text,
    },
    BitMoved {
        owner: Text,
        name: Text,
        was: u32,
        is: u32,
    },
    WidthChanged {
        owner: Text,
        name: Text,
        was: u32,
        is: u32,
    },
    BitsLate {
        what: Item,
        current: Text,
        release: Text,
    },
    BitsRedated {
        what: Item,
        was: Text,
        release: Text,
    },
    TypeGone {
        name: TypeName,
    },
    FieldGone {
        owner: TypeName,
        name: Text,
    },
    Moved {
        owner: TypeName,
        name: Text,
        was: u64,
        is: u64,
    },
    Resized {
        owner: TypeName,
        name: Text,
        was: u64,
        is: u64,
    },
    Redescribed {
        owner: TypeName,
        name: Text,
        was: Description,
        is: Description,
    },
    StandingChanged {
        name: Text,
        was: bool,
        is: bool,
    },
    ShippedFamilyChanged {
        name: TypeName,
        change: Option<Text>,
    },
    Uncovered {
        name: TypeName,
    },
    NoConstant {
        name: Text,
    },
    NoGeneration {
        constant: Text,
        was: u64,
    },
    Unraised {
        name: Text,
        was: u32,
        what: TypeName,
        constant: Text,
        next: u64,
    },
    Unlisted {
        constant: Text,
        is: u32,
        name: Text,
    },
    Leapt {
        constant: Text,
        was: u32,
        is: u32,
        copy: Option<Text>,
        current: Text,
    },
    Fell {
        constant: Text,
        was: u32,
        is: u32,
    },
}

impl Verdict {
    // 01's number.
    pub fn number(self) -> u32
        ensures { result ≡ number_for self }
    {
        match self {
            Verdict::Described => 11,
            Verdict::NowUnreadable { current: _ } => 12,
            Verdict::BeforeNaming { current: _ } => 13,
            Verdict::WasUnreadable { was: _ } => 14,
            Verdict::NotLater { was: _, current: _ } => 15,
            Verdict::ValueUndated {
                owner: _,
                name: _,
                current: _,
                release: _,
            } => 16,
            Verdict::Late {
                what: _,
                current: _,
                names: _,
            } => 17,
            Verdict::Redated {
                what: _,
                was: _,
                names: _,
            } => 18,
            Verdict::Backdated {
                what: _,
                copy: _,
                current: _,
            } => 19,
            Verdict::ConstantGone { name: _ } => 20,
            Verdict::ConstantChanged {
                name: _,
                was: _,
                is: _,
            } => 21,
            Verdict::EnumGone { name: _ } => 22,
            Verdict::Renumbered {
                owner: _,
                name: _,
                was: _,
                is: _,
            } => 23,
            Verdict::Renamed {
                owner: _,
                name: _,
                is: _,
            } => 24,
            Verdict::ValueGone { owner: _, name: _ } => 25,
            Verdict::BitFieldGone { name: _ } => 26,
            Verdict::MemberRenamed {
                owner: _,
                name: _,
                is: _,
            } => 27,
            Verdict::MemberGone { owner: _, name: _ } => 28,
            Verdict::BitMoved {
                owner: _,
                name: _,
                was: _,
                is: _,
            } => 29,
            Verdict::WidthChanged {
                owner: _,
                name: _,
                was: _,
                is: _,
            } => 30,
            Verdict::BitsLate {
                what: _,
                current: _,
                release: _,
            } => 31,
            Verdict::BitsRedated {
                what: _,
                was: _,
                release: _,
            } => 32,
            Verdict::TypeGone { name: _ } => 33,
            Verdict::FieldGone { owner: _, name: _ } => 34,
            Verdict::Moved {
                owner: _,
                name: _,
                was: _,
                is: _,
            } => 35,
            Verdict::Resized {
                owner: _,
                name: _,
                was: _,
                is: _,
            } => 36,
            Verdict::Redescribed {
                owner: _,
                name: _,
                was: _,
                is: _,
            } => 37,
            Verdict::StandingChanged {
                name: _,
                was: _,
                is: _,
            } => 38,
            Verdict::ShippedFamilyChanged { name: _, change: _ } => 39,
            Verdict::Uncovered { name: _ } => 40,
            Verdict::NoConstant { name: _ } => 41,
            Verdict::NoGeneration {
                constant: _,
                was: _,
            } => 42,
            Verdict::Unraised {
                name: _,
                was: _,
                what: _,
                constant: _,
                next: _,
            } => 43,
            Verdict::Unlisted {
                constant: _,
                is: _,
                name: _,
            } => 44,
            Verdict::Leapt {
                constant: _,
                was: _,
                is: _,
                copy: _,
                current: _,
            } => 45,
            Verdict::Fell {
                constant: _,
                was: _,
                is: _,
            } => 46,
        }
    }
}

// 01's number of what a pass answers, 0 for no violation.
pub fn number_found(found: Result<(), Verdict>) -> u32
    ensures { result ≡ number_found found }
{
    match found {
        Ok(_) => 0,
        Err(v) => v.number(),
    }
}
