// Shows an answer or a refusal as a line of text.
ghost use Rattle.std.specs.Prelude.{◌≡◌, ◌++◌, Some, IfSome, string_bytes};
ghost use Rattle.lines.specs.Showing.{answer_line, refusal_line, MadeOrNoMemory};
ghost use Rattle.lines.specs.Refusals.{line_refusal_number};

use crate::call::Answer;
use crate::error::TextError;
use crate::refusal::LineRefusal;
use std::fmt;
use std::fmt::Write;

// The line that the answer is, with its end.
impl fmt::Display for Answer {
    ghost output = { λ x. Some (answer_line x) };

    fn fmt<W: fmt::Write>(&self, f: &mut fmt::Formatter<W>) -> fmt::Result {
        match *self {
            Answer::Noted(held) => writeln!(f, "n {held}"),
        }
    }
}

// The refusal of the line at a place.
#[derive(Clone, Copy)]
pub(crate) struct RefusedLine {
    pub(crate) place: u32,
    pub(crate) refusal: LineRefusal,
}

impl fmt::Display for RefusedLine {
    ghost output = { λ x. Some (refusal_line x.place (line_refusal_number x.refusal)) };

    fn fmt<W: fmt::Write>(&self, f: &mut fmt::Formatter<W>) -> fmt::Result {
        let place = self.place;
        let number = self.refusal.number();
        writeln!(f, "! {place} {number}")
    }
}

// Writes what is shown at the end of the text.
pub(crate) fn show<T: fmt::Display>(out: &mut String, line: &T) -> Result<(), TextError>
    ensures { MadeOrNoMemory result (λ _. IfSome (T.output line.now) (λ text. string_bytes out.new ≡ string_bytes out.old ++ text)) }
{
    write!(out, "{line}").map_err(fmt::Error::from)?;
    Ok(())
}
