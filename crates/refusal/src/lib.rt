// A refusal as document 01 tables it: "Each returns its number and a place".
#![tactic(auto)]

ghost use Rattle.std.specs.Prelude.{◌≡◌};

use geometry::{Disk, Tuple};
use std::error::Error;
use std::fmt;

// The reasons in the table's order. Where a row names a place, the reason has it.
#[derive(Clone, Copy, Debug, PartialEq, Eq)]
pub enum Refusal {
    // "no set held for v"
    NotHeld,
    // "v or k beyond its limits"
    BeyondLimits,
    // "r or b not whole, or list length not b·k"
    NotWhole,
    // "a group number of v or more, or a row not ascending": the first such row
    BadRow(u32),
    // "a pair a<b not in exactly one row": the lowest a·v+b
    BadPair(u32),
    // "g or u not allowed"
    NotAllowed,
    // "array or marks of another length, or array above the limit"
    WrongLength,
    // "a mark above 1": the lowest disk
    HighMark(Disk),
    // "disk or unit number too high"
    PlaceTooHigh,
    // "user unit number too high"
    UserUnitTooHigh,
    // "range leaves the unit"
    LeavesUnit,
    // "data disk marked", "any of its four disks marked": the first
    Marked(Disk),
    // "rebuild leaves a tuple incomplete": the lowest
    Incomplete(Tuple),
    // "plan list shorter than 3·r(g-1)k"
    ListTooShort,
}

impl Refusal {
    ghost use Rattle.refusal.specs.Refusal.{number_of, place_of};

    // The table's number.
    pub fn number(self) -> u32
        ensures { result ≡ number_of self }
    {
        match self {
            Refusal::NotHeld => 1,
            Refusal::BeyondLimits => 2,
            Refusal::NotWhole => 3,
            Refusal::BadRow(_) => 4,
            Refusal::BadPair(_) => 5,
            Refusal::NotAllowed => 6,
            Refusal::WrongLength => 7,
            Refusal::HighMark(_) => 8,
            Refusal::PlaceTooHigh => 9,
            Refusal::UserUnitTooHigh => 10,
            Refusal::LeavesUnit => 11,
            Refusal::Marked(_) => 12,
            Refusal::Incomplete(_) => 13,
            Refusal::ListTooShort => 14,
        }
    }

    // The place, and 0 for a reason that has none.
    pub fn place(self) -> u32
        ensures { result ≡ place_of self }
    {
        match self {
            Refusal::BadRow(row) => row,
            Refusal::BadPair(pair) => pair,
            Refusal::HighMark(disk) | Refusal::Marked(disk) => disk.0,
            Refusal::Incomplete(tuple) => tuple.0,
            _ => 0,
        }
    }
}

// "A refusal prints `refused`, a space and its number".
impl fmt::Display for Refusal {
    ghost use Rattle.std.specs.Prelude.{Some, codes, ◌++◌};
    ghost use Rattle.std.specs.Fmt.{decimal};
    ghost use Rattle.refusal.specs.Refusal.{number_of};

    ghost output = { λ x. Some (codes "refused " ++ decimal (number_of x)) };

    fn fmt<W: fmt::Write>(&self, f: &mut fmt::Formatter<W>) -> fmt::Result {
        write!(f, "refused {}", self.number())
    }
}

impl Error for Refusal {}
