//! Numbers of the command line.
ghost use Rattle.std.specs.Prelude.{◌≡◌, ◌≤◌, IfSome, bytes_eq};
ghost use Rattle.std.specs.Fmt.{decimal};
ghost use Rattle.std.specs.Option.{option_copied};
ghost use Rattle.lp_script.specs.Reading.{is_between as between, number_named};
ghost use Rattle.lp_serve_words.specs.Values.{number_in as number_in_value};

use itoa::Buffer;

// Whether a word is what a number is written as: no sign, and no leading zero.
fn is_spelling(number: u64, word: &str) -> bool
    ensures { result ≡ bytes_eq (decimal number) word.now }
{
    let mut spelled = Buffer::new();
    spelled.format(number) == word
}

// Whether a number lies from one up to another.
fn is_between(low: u64, high: u64, number: u64) -> bool
    ensures { result ≡ between low high number }
{
    low <= number && number <= high
}

// The number that a word is.
fn number_of(low: u64, high: u64, word: &str) -> Option<u64>
    ensures value { result ≡ number_named (between low high) word.now }
    ensures within { IfSome result (λ n. n ≤ high) }
{
    let number = match word.parse::<u64>() {
        Ok(number) => number,
        Err(_) => return None,
    };
    if !is_spelling(number, word) {
        return None;
    }
    if !is_between(low, high, number) {
        return None;
    }
    Some(number)
}

/// The number that a value is, in decimal digits without sign and without a leading zero, if it is one
/// from `low` up to `high`. Takes no memory.
pub fn number_in(low: u64, high: u64, value: Option<&str>) -> Option<u64>
    ensures value { result ≡ number_in_value low high (option_copied value.entry) }
    ensures within { IfSome result (λ n. n ≤ high) }
{
    match value {
        Some(word) => number_of(low, high, word),
        None => None,
    }
}
