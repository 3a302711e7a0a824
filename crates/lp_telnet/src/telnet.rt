//! Lines of a stream that comes in pieces.
ghost use Rattle.std.specs.Prelude.{◌≡◌, ◌+◌, ◌≤◌, IfOk, List, OnErr, OnOk, [], length, take, ℕ, ◌∷◌, ◌++◌};
ghost use Rattle.lp_telnet.specs.Lines.{BeginsWith, beginning, ended, first_line, kept, lines_from, lines_of, max_line, text_from, with_ends};

use crate::command::Within;
use lp_io::Octets;
use std::alloc::{AllocError, Global};
use std::marker::Model;

/// How many bytes of a line are kept.
pub const MAX_LINE: usize = 4096;

/// Where a stream stands: in the middle of a command or not, behind a 13 or not, and what has come
/// of the line that has not ended.
#[derive(Drop)]
pub struct Telnet {
    alloc: Global,
    within: Within,
    behind_13: bool,
    line: Vec<u8>,
}

impl Model for Telnet {
    ghost use Rattle.std.specs.Prelude.{◌≤◌, length};
    ghost use Rattle.lp_telnet.specs.Lines.{Place};

    ghost Value = { Place };

    ghost view = { λ t. record { within = t.within; behind_13 = t.behind_13; line = t.line.items } };

    ghost invariant = { λ t. length t.line.items ≤ 4096 };
}

impl Telnet {
    /// A stream at its beginning. Takes no memory.
    pub fn new(alloc: Global) -> Telnet
        ensures place { result ≡ beginning }
        ensures lines { (bytes : List ℕ) → lines_from result bytes ≡ lines_of bytes }
    {
        Telnet {
            alloc,
            within: Within::Text,
            behind_13: false,
            line: Vec::new(alloc),
        }
    }

    /// The lines that end in the next piece of the stream. Whatever follows, these lines and those
    /// that it gives are those that the piece and what follows give together, so it makes no
    /// difference where the stream is cut. Where memory runs out, the stream stands where it stood.
    pub fn feed(&mut self, bytes: &[u8]) -> Result<Vec<Octets>, AllocError>
        ensures lines { IfOk result (λ lines. lines.items ≡ lines_from self.old bytes.now) }
        ensures rest { IfOk result (λ lines. (rest : List ℕ) → lines.items ++ lines_from self.new rest ≡ lines_from self.old (bytes.now ++ rest)) }
        ensures err { OnErr result (self.new ≡ self.old) }
    {
        let within = self.within;
        let behind_13 = self.behind_13;
        let begun = self.line.len();
        let mut lines = Vec::new(self.alloc);
        match self.take_all(bytes, &mut lines) {
            Ok(()) => Ok(lines),
            Err(error) => {
                self.take_back(lines, begun);
                self.within = within;
                self.behind_13 = behind_13;
                Err(error)
            }
        }
    }

    // Takes the bytes in, and puts the lines that end behind those that did.
    fn take_all(&mut self, bytes: &[u8], lines: &mut Vec<Octets>) -> Result<(), AllocError>
        ensures ok { OnOk result ((rest : List ℕ) → lines.new.items ++ lines_from self.new rest ≡ lines.old.items ++ lines_from self.old (bytes.now ++ rest)) }
        ensures begun { BeginsWith (first_line lines.old.items self.old.line) (first_line lines.new.items self.new.line) }
    {
        for byte in bytes {
            self.take_in(*byte, lines)?;
        }
        Ok(())
    }

    // Takes one byte in.
    fn take_in(&mut self, byte: u8, lines: &mut Vec<Octets>) -> Result<(), AllocError>
        ensures ok { OnOk result ((rest : List ℕ) → lines.new.items ++ lines_from self.new rest ≡ lines.old.items ++ lines_from self.old (byte ∷ rest)) }
        ensures begun { BeginsWith (first_line lines.old.items self.old.line) (first_line lines.new.items self.new.line) }
    {
        let (within, is_text) = self.within.behind(byte);
        self.within = within;
        if is_text {
            self.take_text(byte, lines)
        } else {
            Ok(())
        }
    }

    // Takes in one byte of the text.
    fn take_text(&mut self, byte: u8, lines: &mut Vec<Octets>) -> Result<(), AllocError>
        ensures within { self.new.within ≡ self.old.within }
        ensures ok { OnOk result ((rest : List ℕ) → lines.new.items ++ ended self.new.line (with_ends self.new.behind_13 rest)
            ≡ lines.old.items ++ ended self.old.line (with_ends self.old.behind_13 (byte ∷ rest))) }
        ensures begun { BeginsWith (first_line lines.old.items self.old.line) (first_line lines.new.items self.new.line) }
    {
        let behind_13 = self.behind_13;
        self.behind_13 = byte == 13;
        match byte {
            13 => self.end_line(lines),
            0 => Ok(()),
            10 if behind_13 => Ok(()),
            10 => self.end_line(lines),
            _ => self.put(byte),
        }
    }

    // Ends the line.
    fn end_line(&mut self, lines: &mut Vec<Octets>) -> Result<(), AllocError>
        ensures same { self.new.within ≡ self.old.within }
        ensures same_flag { self.new.behind_13 ≡ self.old.behind_13 }
        ensures line { OnOk result (self.new.line ≡ []) }
        ensures lines { OnOk result (lines.new.items ≡ lines.old.items ++ take max_line self.old.line ∷ []) }
        ensures err { OnErr result (self.new ≡ self.old) }
        ensures err_lines { OnErr result (lines.new.items ≡ lines.old.items) }
        ensures begun { BeginsWith (first_line lines.old.items self.old.line) (first_line lines.new.items self.new.line) }
    {
        let line = std::mem::replace(&mut self.line, Vec::new(self.alloc));
        match lines.push(Octets::from_vec(line)) {
            Ok(()) => Ok(()),
            Err(failed) => {
                self.line = failed.value.into_vec();
                Err(AllocError)
            }
        }
    }

    // Puts a byte at the end of the line, where it has room.
    fn put(&mut self, byte: u8) -> Result<(), AllocError>
        ensures same { self.new.within ≡ self.old.within }
        ensures same_flag { self.new.behind_13 ≡ self.old.behind_13 }
        ensures ok { OnOk result ((rest : List ℕ) → ended self.new.line rest ≡ ended (self.old.line ++ byte ∷ []) rest) }
        ensures begun { BeginsWith self.old.line self.new.line }
    {
        if self.line.len() < MAX_LINE {
            self.line.push(byte)?;
        }
        Ok(())
    }

    // Makes the line what it was when so many of its bytes had come.
    fn take_back(&mut self, mut lines: Vec<Octets>, begun: usize)
        requires { begun ≤ 4096 }
        ensures { self.new.line ≡ take begun (first_line lines.items self.old.line) }
    {
        if !lines.is_empty() {
            self.line = lines.remove(0).into_vec();
        }
        self.line.truncate(begun);
    }
}
