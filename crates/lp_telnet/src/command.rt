//! The commands of a telnet stream, which are taken out of it.
ghost use Rattle.std.specs.Prelude.{◌≡◌, List, ℕ, ◌∷◌, ◌++◌};
ghost use Rattle.lp_telnet.specs.Lines.{kept, text_from};

/// What a stream stands within: text, or a command that is not at its end yet.
#[derive(Clone, Copy, Debug, PartialEq, Eq)]
pub enum Within {
    /// Text.
    Text,
    /// Behind the byte 255.
    Command,
    /// Behind 255 and one of 251 to 254: one byte of the command is still to come.
    Negotiation,
    /// Behind 255 250.
    Subnegotiation,
    /// Behind a 255 in what follows 255 250.
    SubnegotiationCommand,
}

impl Within {
    /// What the stream stands within behind one more byte, and whether that byte is one of the text.
    pub fn behind(self, byte: u8) -> (Within, bool)
        ensures { (rest : List ℕ) → text_from self (byte ∷ rest) ≡ kept result.1 byte ++ text_from result.0 rest }
    {
        match self {
            Within::Text => if byte == 255 {
                (Within::Command, false)
            } else {
                (Within::Text, true)
            },
            Within::Command => match byte {
                255 => (Within::Text, true),
                251..=254 => (Within::Negotiation, false),
                250 => (Within::Subnegotiation, false),
                _ => (Within::Text, false),
            },
            Within::Negotiation => (Within::Text, false),
            Within::Subnegotiation => if byte == 255 {
                (Within::SubnegotiationCommand, false)
            } else {
                (Within::Subnegotiation, false)
            },
            Within::SubnegotiationCommand => if byte == 240 {
                (Within::Text, false)
            } else {
                (Within::Subnegotiation, false)
            },
        }
    }
}
