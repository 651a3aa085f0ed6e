// Why a profile refuses, and the number of each case.
ghost use Rattle.std.specs.Prelude.{◌≡◌};
ghost use Rattle.profile.specs.Refusals.{refusal_number};
ghost use Rattle.profile.specs.declared.refusal.Refusal.TheVariants.{Class};

use classes::ClassRefusal;

#[derive(Clone, Copy, Debug, PartialEq, Eq)]
pub enum Refusal {
    // the plan's refusal, as it came
    Class(ClassRefusal),
    // a count of 0, or above 65,535
    CountOutOfRange,
    // as many records are held as there is room for
    RecordsFull,
    // the counts held and this one are more than there is room for
    TotalTooLarge,
}

impl Refusal {
    // A match, since the case that holds another refusal has that one's number and none of its own.
    pub fn number(self) -> u32
        ensures { result ≡ refusal_number self }
    {
        match self {
            Refusal::Class(inner) => inner.number(),
            Refusal::CountOutOfRange => 31,
            Refusal::RecordsFull => 32,
            Refusal::TotalTooLarge => 33,
        }
    }
}

impl From<ClassRefusal> for Refusal {
    ghost from_gives = { λ e r. r ≡ Class e };

    fn from(refusal: ClassRefusal) -> Refusal {
        Refusal::Class(refusal)
    }
}
