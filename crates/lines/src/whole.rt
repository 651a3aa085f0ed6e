// The whole text that answers a whole input.
ghost use Rattle.std.specs.Prelude.{◌≡◌, ◌≤◌, ℕ, List, [], ◌∷◌, ◌++◌, length, IfOk, string_bytes, MatchResult};
ghost use Rattle.classes.specs.Sixteens.{sixteens};
ghost use Rattle.profile.specs.Stands.{setting};
ghost use Rattle.lines.specs.Answering.{input_answer, transcript_of, InOrder};
ghost use Rattle.lines.specs.Lines.{lines_of, Endless, CutInto};
ghost use Rattle.lines.specs.Replying.{Ran, Stopped};
ghost use Rattle.lines.specs.Showing.{MadeOrNoMemory};

use crate::answering::reply;
use crate::error::TextError;
use crate::refusal::LineRefusal;
use crate::showing::{RefusedLine, show};
use classes::Sixteens;
use profile::Profile;
use std::alloc::Global;

// The line that these bytes are, without its end.
fn without_end(bytes: &[u8]) -> &[u8]
    ensures ended { (line : List ℕ) → bytes.now ≡ line ++ (10 ∷ []) → result.now ≡ line }
    ensures endless { Endless bytes.now → result.now ≡ bytes.now }
{
    bytes.strip_suffix(b"\n").unwrap_or(bytes)
}

// Whether the input is short enough to be run.
fn within(input: &[u8]) -> Result<(), LineRefusal>
    ensures { result ≡ input_answer (length input.now) }
{
    if input.len() > 32_768 {
        return Err(LineRefusal::InputTooLong);
    }
    Ok(())
}

// What the input's lines are answered with by a new profile, one after the other.
fn run(heap: Global, input: &[u8]) -> Result<String, TextError>
    ensures { MatchResult result (Ran input.now) (Stopped input.now) }
{
    within(input)?;
    let mut out = String::new(heap);
    let mut profile = Profile::new(Sixteens);
    for (place, bytes) in (1..).zip(input.split_inclusive(|byte| *byte == b'\n')) {
        reply(&mut profile, &mut out, place, without_end(bytes))?;
    }
    Ok(out)
}

// The text of a run, or the one line that says why there was none.
fn text_of(heap: Global, input: &[u8]) -> Result<String, TextError>
    ensures { MadeOrNoMemory result (λ t. string_bytes t ≡ transcript_of input.now) }
{
    match run(heap, input) {
        Err(TextError::Refused(refusal)) => {
            let mut out = String::new(heap);
            show(&mut out, &RefusedLine { place: 0, refusal })?;
            Ok(out)
        }
        other => other,
    }
}

// The whole output of a whole input.
pub fn transcript(heap: Global, input: &[u8]) -> Result<String, TextError>
    ensures text { MadeOrNoMemory result (λ t. string_bytes t ≡ transcript_of input.now) }
    ensures order { IfOk result (λ t. length input.now ≤ 32768 → InOrder (setting sixteens) (lines_of input.now) (string_bytes t)) }
    ensures lines { CutInto input.now (lines_of input.now) }
{
    text_of(heap, input)
}
