//! Numbers as words.
ghost use Rattle.std.specs.Prelude.{◌≡◌, ◌-◌, ◌^◌, min};
ghost use Rattle.std.specs.List.{list_all};
ghost use Rattle.lp_events.specs.Script.{numeral};
ghost use Rattle.lp_script.specs.Reading.{is_digit, is_numeral as is_numeral_lem, value_from, number_named, is_between, reaches as reaches_lem, begins_between as begins_between_lem, begins_any as begins_any_lem, is_front};

use itoa::Buffer;

fn all_digits(word: &[u8]) -> bool
    ensures { result ≡ list_all is_digit word.now }
{
    word.iter().all(|b| 48 <= *b && *b <= 57)
}

// Digits, of which the first is no 0 unless it is alone.
pub(crate) fn is_numeral(word: &[u8]) -> bool
    ensures { result ≡ is_numeral_lem word.now }
{
    match word {
        [] => false,
        [first, rest @ ..] => { all_digits(word) && (*first != 48 || rest.is_empty()) }
    }
}

/// The number of these digits, or `u128::MAX` where it is more.
pub(crate) fn value(word: &[u8]) -> u128
    ensures { result ≡ min (value_from 0 word.now) (2 ^ 128 - 1) }
{
    let mut value: u128 = 0;
    for b in word {
        value = value
            .saturating_mul(10)
            .saturating_add(u128::from(b.saturating_sub(48)));
    }
    value
}

/// The number that a word is, from `low` up to `high`.
pub(crate) fn number_between(low: u64, high: u64, word: &[u8]) -> Option<u64>
    ensures { result ≡ number_named (is_between low high) word.now }
{
    if !is_numeral(word) {
        return None;
    }
    let n = value(word);
    if n < u128::from(low) || u128::from(high) < n {
        return None;
    }
    Some(n as u64)
}

// Does some number of at most so many more digits lie between two numbers, where those behind lie
// from one number up to below another?
#[tactic(auto, unfolding(crate::specs::Reading::reaches))]
fn reaches(digits: u8, low: u64, high: u64, from: u128, to: u128) -> bool
    ensures { result ≡ reaches_lem digits low high from to }
{
    if digits == 0 || u128::from(high) < from {
        return false;
    }
    u128::from(low) < to || reaches(digits - 1, low, high, 10 * from, 10 * to)
}

/// May a word become a number from `low` up to `high`?
#[tactic(auto, unfolding(crate::specs::Reading::begins_between))]
pub(crate) fn begins_between(low: u64, high: u64, word: &[u8]) -> bool
    ensures { result ≡ begins_between_lem low high word.now }
{
    if word.is_empty() {
        return true;
    }
    if !is_numeral(word) {
        return false;
    }
    let n = value(word);
    if n == 0 {
        return low == 0;
    }
    n <= u128::from(high) && reaches(20, low, high, n, n + 1)
}

/// May a word become a number?
pub(crate) fn begins_any(word: &[u8]) -> bool
    ensures { result ≡ begins_any_lem word.now }
{
    word.is_empty() || is_numeral(word)
}

/// Is a word a front of the spelling of a number?
pub(crate) fn begins_number(k: u32, word: &[u8]) -> bool
    ensures { result ≡ is_front word.now (numeral k) }
{
    let mut buffer = Buffer::new();
    buffer.format(k).as_bytes().starts_with(word)
}
