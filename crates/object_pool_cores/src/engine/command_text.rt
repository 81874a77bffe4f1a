//! The command that a line writes.
ghost use Rattle.std.specs.Prelude.{◌≡◌, ◌≢◌, ◌≤◌, ◌++◌, ◌∷◌, ℕ, List, All, MatchOption, length};
ghost use Rattle.std.specs.Char.{IsAsciiDigit};
ghost use Rattle.std.specs.Str.Parse.{digits_value};
ghost use Rattle.object_pool_cores.specs.declared.engine.command_text.TheConstants.{MOST_DIGITS};
ghost use Rattle.object_pool_cores.specs.CommandText.{IsNumber, AreNumbers, IsCommand, IsBadLine};

use crate::sequential::Command;

/// The most digits that a number may have.
const MOST_DIGITS: usize = 10;

/// Reads the command of a line without its line feed, or returns `None` if it is a bad line.
pub(super) fn command_of(line: &[u8]) -> Option<Command<u32>>
    ensures { MatchOption result (IsBadLine line.now) (IsCommand line.now) }
{
    if let Some(rest) = rest_after(line, b"write ") {
        let (index, value) = numbers_of(rest)?;
        return Some(Command::Write(index as usize, value));
    }
    if let Some(rest) = rest_after(line, b"return ") {
        return Some(Command::Return(number_of(rest)? as usize));
    }
    if let Some(rest) = rest_after(line, b"forget ") {
        return Some(Command::Forget(number_of(rest)? as usize));
    }
    if let Some(rest) = rest_after(line, b"attach ") {
        return Some(Command::Attach(number_of(rest)?));
    }
    match rest_after(line, b"pull") {
        Some([]) => Some(Command::Pull),
        _ => None,
    }
}

/// Returns what comes after a word that the line begins with.
fn rest_after<'a>(line: &'a [u8], word: &[u8]) -> Option<&'a [u8]>
    ensures { MatchOption result ((rest : List ℕ) → line.now ≡ word.now ++ rest → ⊥)
        (λ rest. line.now ≡ word.now ++ rest.now) }
{
    line.strip_prefix(word)
}

/// Reads two numbers with one space between them.
fn numbers_of(text: &[u8]) -> Option<(u32, u32)>
    ensures { MatchOption result ((first second : ℕ) → AreNumbers text.now first second → ⊥)
        (λ both. AreNumbers text.now both.0 both.1) }
{
    let (first, second) = around_space(text)?;
    Some((number_of(first)?, number_of(second)?))
}

/// Splits a text into what comes before its first space and what comes after it.
fn around_space(text: &[u8]) -> Option<(&[u8], &[u8])>
    ensures { MatchOption result (All (λ byte. byte ≢ 32) text.now)
        (λ both. All (λ byte. byte ≢ 32) both.0.now × (text.now ≡ both.0.now ++ 32 ∷ both.1.now)) }
{
    for (index, byte) in text.iter().enumerate() {
        if *byte == b' ' {
            return Some((&text[..index], &text[index + 1..]));
        }
    }
    None
}

/// Reads the number that a text of one to ten decimal digits writes.
///
/// # Errors
///
/// `None` if it is another text, or the number is above `u32::MAX`.
pub fn number_of(text: &[u8]) -> Option<u32>
    ensures { MatchOption result ((n : ℕ) → IsNumber text.now n → ⊥) (λ n. IsNumber text.now n) }
{
    if text.is_empty() || text.len() > MOST_DIGITS || !text.iter().all(u8::is_ascii_digit) {
        return None;
    }
    u32::try_from(value_of(text)).ok()
}

/// Returns the value of at most ten digits.
fn value_of(digits: &[u8]) -> u64
    requires digits { All IsAsciiDigit digits.now }
    requires most { length digits.now ≤ MOST_DIGITS }
    ensures { result ≡ digits_value 10 digits.now }
{
    let mut value = 0u64;
    for digit in digits {
        value = value * 10 + u64::from(digit - b'0');
    }
    value
}
