//! Numbers of a script.
ghost use Rattle.std.specs.Prelude.{◌≤◌, IfOk};

use crate::reason::Reason;

// The number of these digits, or `u128::MAX` where it is more.
fn value(word: &[u8]) -> u128 {
    let mut value: u128 = 0;
    for byte in word {
        value = value
            .saturating_mul(10)
            .saturating_add(u128::from(byte.saturating_sub(48)));
    }
    value
}

fn are_digits(word: &[u8]) -> bool {
    word.iter().all(|b| 48 <= *b && *b <= 57)
}

/// The number that a word is, up to `most`, or why it is none. `what` names it.
pub(crate) fn number(what: &'static str, most: u64, word: &[u8]) -> Result<u64, Reason>
    ensures { IfOk result (λ n. n ≤ most) }
{
    if word.is_empty() {
        return Err(Reason::Missing(what));
    }
    if !are_digits(word) {
        return Err(Reason::NoNumber(what));
    }
    if word.len() > 1 && word[0] == b'0' {
        return Err(Reason::LeadingZero(what));
    }
    let n = value(word);
    if n > u128::from(most) {
        return Err(Reason::Above(what, most));
    }
    Ok(n as u64)
}
