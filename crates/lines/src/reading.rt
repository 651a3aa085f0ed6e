// Reads a line as a call: a letter, and before each number one space.
ghost use Rattle.std.specs.Prelude.{◌≡◌, ◌≤◌, length, Ok, Err, MatchResult};
ghost use Rattle.std.specs.Str.Parse.{digits_value as value10, AllDigits};
ghost use Rattle.std.specs.Char.{is_ascii_digit};
ghost use Rattle.std.specs.List.{prefix_len};
ghost use Rattle.lines.specs.Reading.{one_to_nine, number_at, two_numbers, reads};
ghost use Rattle.lines.specs.Writing.{WrittenBy};

use crate::call::Call;
use crate::refusal::LineRefusal;

// How many bytes from the front on are digits.
fn digits(text: &[u8]) -> usize
    ensures { result ≡ prefix_len is_ascii_digit text.now }
{
    text.iter().take_while(|byte| byte.is_ascii_digit()).count()
}

// The number that at most nine digits write.
fn value(figures: &[u8]) -> u32
    requires digits { AllDigits 10 figures.now }
    requires short { length figures.now ≤ 9 }
    ensures { result ≡ value10 10 figures.now }
{
    figures
        .iter()
        .fold(0, |n, figure| n * 10 + u32::from(*figure - b'0'))
}

// How many digits the number at the front has: one to nine.
fn number_length(text: &[u8]) -> Result<usize, LineRefusal>
    ensures { result ≡ one_to_nine (prefix_len is_ascii_digit text.now) }
{
    match digits(text) {
        n @ 1..=9 => Ok(n),
        _ => Err(LineRefusal::Unreadable),
    }
}

// A space and a number at the front, with what follows them.
fn number(text: &[u8]) -> Result<(u32, &[u8]), LineRefusal>
    ensures { MatchResult result (λ x. number_at text.now ≡ Ok (x.0, x.1.now)) (λ e. number_at text.now ≡ Err e) }
{
    let [b' ', rest @ ..] = text else {
        return Err(LineRefusal::Unreadable);
    };
    let n = number_length(rest)?;
    let (figures, after) = rest.split_at(n);
    Ok((value(figures), after))
}

// Two numbers, and nothing after them.
fn two_numbers(text: &[u8]) -> Result<(u32, u32), LineRefusal>
    ensures { result ≡ two_numbers text.now }
{
    let (a, text) = number(text)?;
    let (b, text) = number(text)?;
    if text.is_empty() {
        Ok((a, b))
    } else {
        Err(LineRefusal::Unreadable)
    }
}

// The call that a letter chooses, with the numbers after it.
fn by_letter(line: &[u8]) -> Result<Call, LineRefusal>
    ensures { result ≡ reads line.now }
{
    match line {
        [b'n', rest @ ..] => {
            let (bytes, count) = two_numbers(rest)?;
            Ok(Call::Note { bytes, count })
        }
        _ => Err(LineRefusal::Unreadable),
    }
}

// The one call that the line writes.
pub fn read(line: &[u8]) -> Result<Call, LineRefusal>
    ensures value { result ≡ reads line.now }
    ensures written { WrittenBy line.now result }
{
    by_letter(line)
}
