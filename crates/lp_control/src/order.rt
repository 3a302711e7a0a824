//! What the operator asks for.
ghost use Rattle.std.specs.Prelude.{◌≡◌};
ghost use Rattle.std.specs.Option.{option_map};
ghost use Rattle.lp_wire.specs.Heard.{behind_word as behind_word_lem, order_of as order_of_lem};
ghost use Rattle.lp_control.specs.Orders.{meant};

/// What a line of the operator says.
#[derive(Debug, Clone, Copy, PartialEq, Eq)]
pub enum Order<'a> {
    /// The run is to end.
    Stop,
    /// The file at a path is to be read again; nothing is known of the path.
    Reload(&'a [u8]),
    /// Anything else.
    Unknown,
}

// What stands behind a word, if a line begins with it.
fn behind_word<'a>(word: &[u8], line: &'a [u8]) -> Option<&'a [u8]>
    ensures { option_map (λ rest. rest.now) result ≡ behind_word_lem word.now line.now }
{
    match word {
        [] => Some(line),
        [b, word @ ..] => match line {
            [] => None,
            [c, line @ ..] if b == c => behind_word(word, line),
            [_, ..] => None,
        },
    }
}

/// What a line of the operator says: `stop` or `reload PATH`, exactly. Takes no memory.
pub fn order_of(line: &[u8]) -> Order<'_>
    ensures { meant result ≡ order_of_lem line.now }
{
    if line == b"stop".as_slice() {
        return Order::Stop;
    }
    match behind_word(b"reload ", line) {
        Some(path) => Order::Reload(path),
        None => Order::Unknown,
    }
}
