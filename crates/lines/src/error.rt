// Why a text could not be made: a refusal, or want of memory.
ghost use Rattle.std.specs.Prelude.{◌≡◌, Some};
ghost use Rattle.lines.specs.Showing.{error_text};
ghost use Rattle.lines.specs.declared.error.TextError.TheVariants.{Refused, NoMemory};

use crate::refusal::LineRefusal;
use std::fmt;

#[derive(Clone, Copy, Debug)]
pub enum TextError {
    Refused(LineRefusal),
    NoMemory,
}

impl From<LineRefusal> for TextError {
    ghost from_gives = { λ e r. r ≡ Refused e };

    fn from(refusal: LineRefusal) -> TextError {
        TextError::Refused(refusal)
    }
}

// Writing to a `String` fails only for want of memory.
impl From<fmt::Error> for TextError {
    ghost from_gives = { λ _ r. r ≡ NoMemory };

    fn from(_error: fmt::Error) -> TextError {
        TextError::NoMemory
    }
}

impl fmt::Display for TextError {
    ghost output = { λ x. Some (error_text x) };

    fn fmt<W: fmt::Write>(&self, f: &mut fmt::Formatter<W>) -> fmt::Result {
        match self {
            Self::Refused(refusal) => write!(f, "{refusal}"),
            Self::NoMemory => write!(f, "out of memory"),
        }
    }
}

impl std::error::Error for TextError {}
