// Why the line program refuses, and the number of each case.
ghost use Rattle.std.specs.Prelude.{◌≡◌, Some};
ghost use Rattle.lines.specs.Refusals.{line_refusal_number};
ghost use Rattle.lines.specs.Showing.{refusal_text};
ghost use Rattle.lines.specs.declared.refusal.LineRefusal.TheVariants.{Profile};

use profile::Refusal;
use std::fmt;

#[derive(Clone, Copy, Debug, PartialEq, Eq)]
pub enum LineRefusal {
    // the profile's refusal, as it came
    Profile(Refusal),
    // a line that is no call
    Unreadable,
    // more input than is run
    InputTooLong,
}

impl LineRefusal {
    // A match, since the case that holds another refusal has that one's number and none of its own.
    pub fn number(self) -> u32
        ensures { result ≡ line_refusal_number self }
    {
        match self {
            LineRefusal::Profile(inner) => inner.number(),
            LineRefusal::Unreadable => 51,
            LineRefusal::InputTooLong => 52,
        }
    }
}

impl From<Refusal> for LineRefusal {
    ghost from_gives = { λ e r. r ≡ Profile e };

    fn from(refusal: Refusal) -> LineRefusal {
        LineRefusal::Profile(refusal)
    }
}

impl fmt::Display for LineRefusal {
    ghost output = { λ x. Some (refusal_text x) };

    fn fmt<W: fmt::Write>(&self, f: &mut fmt::Formatter<W>) -> fmt::Result {
        let number = self.number();
        write!(f, "refused {number}")
    }
}

impl std::error::Error for LineRefusal {}
