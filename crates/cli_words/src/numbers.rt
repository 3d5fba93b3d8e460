//! Numbers in words.
ghost use Rattle.std.specs.Prelude.{◌≡◌, ◌≤◌, ℕ, IfSome};
ghost use Rattle.std.specs.List.{list_all};
ghost use Rattle.std.specs.Char.{is_ascii_digit};
ghost use Rattle.cli_words.specs.Jobs.{is_number, number_in, number_or, number_of, text_now};

use crate::limits::MOST_DIGITS;

fn are_digits(bytes: &[u8]) -> bool
    ensures { result ≡ list_all is_ascii_digit bytes.now }
{
    bytes.iter().all(|byte| byte.is_ascii_digit())
}

/// Whether the text is 1 to 20 decimal digits.
fn is_number(text: &str) -> bool
    ensures { result ≡ is_number text.now }
{
    let digits = text.as_bytes();
    let has_few = 1 <= digits.len() && digits.len() <= MOST_DIGITS;
    has_few && are_digits(digits)
}

/// The number that the text writes, from `low` to `high`.
#[tactic(auto, unfolding(crate::specs::Jobs::number_in))]
fn number_in(low: u64, high: u64, text: &str) -> Option<u64>
    ensures number { result ≡ number_in low high text.now }
    ensures within { IfSome result (λ n. (low ≤ n) × (n ≤ high)) }
{
    if !is_number(text) {
        return None;
    }
    match text.parse::<u64>() {
        Ok(number) => (low <= number && number <= high).then_some(number),
        Err(_) => None,
    }
}

/// The number of an argument that may be left out, `default` where it is; None where its text writes no number from `low` to `high`.
pub(crate) fn number_or(default: u64, low: u64, high: u64, text: Option<&str>) -> Option<u64>
    requires { default ≤ high }
    ensures number { result ≡ number_or default low high (text_now text.entry) }
    ensures within { IfSome result (λ n. n ≤ high) }
    ensures least { low ≤ default → IfSome result (λ n. low ≤ n) }
{
    match text {
        Some(text) => number_in(low, high, text),
        None => Some(default),
    }
}

/// The number of an argument that may not be left out; None where it is, or its text writes no number from `low` to `high`.
pub(crate) fn number_of(low: u64, high: u64, text: Option<&str>) -> Option<u64>
    ensures number { result ≡ number_of low high (text_now text.entry) }
    ensures within { IfSome result (λ n. (low ≤ n) × (n ≤ high)) }
{
    number_in(low, high, text?)
}
