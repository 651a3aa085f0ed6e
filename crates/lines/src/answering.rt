// Answers a line: it is read, and its call is put to the profile.
ghost use Rattle.std.specs.Prelude.{◌≡◌, false, is_ok, string_bytes};
ghost use Rattle.profile.specs.Stands.{Told};
ghost use Rattle.lines.specs.Answering.{answered, after_line};
ghost use Rattle.lines.specs.Reading.{reads};
ghost use Rattle.lines.specs.Replying.{Replied};

use crate::call::{Answer, Call};
use crate::error::TextError;
use crate::reading::read;
use crate::refusal::LineRefusal;
use crate::showing::{RefusedLine, show};
use classes::SizeClasses;
use profile::Profile;

// What the line's call answers; a refusal of the reader, of the profile or of its plan comes out as it is.
pub fn answer<P: SizeClasses>(profile: &mut Profile<P>, line: &[u8]) -> Result<Answer, LineRefusal>
    ensures told { Told P.blocks profile.old profile.new (λ s h. after_line s h (reads line.now)) (λ s h. answered s h (reads line.now)) result }
    ensures refused { is_ok result ≡ false → profile.new ≡ profile.old }
{
    match read(line)? {
        Call::Note { bytes, count } => {
            let held = profile.note(bytes, count)?;
            Ok(Answer::Noted(held))
        }
    }
}

// Writes what the line at a place is answered with.
pub(crate) fn reply<P: SizeClasses>(
    profile: &mut Profile<P>,
    out: &mut String,
    place: u32,
    line: &[u8],
) -> Result<(), TextError>
    ensures { Replied P.blocks profile.old profile.new place line.now (string_bytes out.old) (string_bytes out.new) result }
{
    match answer(profile, line) {
        Ok(answer) => show(out, &answer),
        Err(refusal) => show(out, &RefusedLine { place, refusal }),
    }
}
