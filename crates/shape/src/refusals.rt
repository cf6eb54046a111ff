// Why nothing is answered, and the number of each refusal, as it leaves through every interface (docs/REFERENCE.md, 3).
ghost use Rattle.std.specs.Prelude.{◌≡◌};
ghost use Rattle.shape.specs.Refusals.{number_of};

use std::error::Error;
use std::fmt;

#[derive(Clone, Copy, Debug, PartialEq, Eq)]
pub enum Refusal {
    BadAbi,
    BadCall,
    BadList,
    BadKind,
    BadSize,
    BadAlign,
    NoRoom,
    BadArea,
    BadExtent,
    BadType,
    TooDeep,
}

impl Refusal {
    // 0 is left for no refusal.
    pub fn number(self) -> u64
        ensures { result ≡ number_of self }
    {
        match self {
            Refusal::BadAbi => 1,
            Refusal::BadCall => 2,
            Refusal::BadList => 3,
            Refusal::BadKind => 4,
            Refusal::BadSize => 5,
            Refusal::BadAlign => 6,
            Refusal::NoRoom => 7,
            Refusal::BadArea => 8,
            Refusal::BadExtent => 9,
            Refusal::BadType => 10,
            Refusal::TooDeep => 11,
        }
    }
}

impl fmt::Display for Refusal {
    fn fmt<W: fmt::Write>(&self, f: &mut fmt::Formatter<W>) -> fmt::Result {
        f.write_str(match self {
            Refusal::BadAbi => "no such description",
            Refusal::BadCall => "no such call",
            Refusal::BadList => "the list has no whole entries, or too many",
            Refusal::BadKind => "no such kind",
            Refusal::BadSize => "the size or the offset is too large",
            Refusal::BadAlign => "the alignment is too large, or 0",
            Refusal::NoRoom => "no room",
            Refusal::BadArea => "no such area",
            Refusal::BadExtent => "a piece ends past its record",
            Refusal::BadType => "a type that isn't an earlier one",
            Refusal::TooDeep => "types inside too many types",
        })
    }
}

impl Error for Refusal {}
