// Why a plan refuses, and the number of each case.
ghost use Rattle.std.specs.Prelude.{◌≡◌, Some};
ghost use Rattle.classes.specs.Refusals.{class_refusal_number, class_refusal_text};

use std::error::Error;
use std::fmt;

#[derive(Clone, Copy, Debug, PartialEq, Eq)]
pub enum ClassRefusal {
    // a request of 0 bytes
    ZeroRequest = 11,
    // a request above the plan's largest block
    AboveLargest = 12,
    // a class that the plan does not have
    NoSuchClass = 13,
}

impl ClassRefusal {
    pub fn number(self) -> u32
        ensures { result ≡ class_refusal_number self }
    {
        self as u32
    }
}

impl fmt::Display for ClassRefusal {
    ghost output = { λ x. Some (class_refusal_text x) };

    fn fmt<W: fmt::Write>(&self, f: &mut fmt::Formatter<W>) -> fmt::Result {
        write!(f, "refused {}", self.number())
    }
}

impl Error for ClassRefusal {}
