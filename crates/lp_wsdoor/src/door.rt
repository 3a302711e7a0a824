//! One player in a browser.
ghost use Rattle.std.specs.Prelude.{◌≡◌, IfOk, IfErr, OnOk, string_bytes};
ghost use Rattle.std.specs.Str.{encode_utf8_all};
ghost use Rattle.tungstenite.specs.Heads.{Serves};
ghost use Rattle.lp_door.specs.Doors.{line_of as line_of_message, message_of as message_of_bytes};
ghost use Rattle.lp_wsdoor.specs.Talk.{Heard, LineHeard, Means, ReadFailed, Said, Stays};
ghost use Rattle.lp_wsdoor.specs.declared.door.DoorIn.TheVariants as came;
ghost use Rattle.lp_wsdoor.specs.declared.door.DoorFault.TheVariants as fault;
ghost use Rattle.tungstenite.specs.Content.{text as text_content};
ghost use Rattle.tungstenite.specs.Socket.{content_of};

use crate::knocking::{Greeted, Knocking};
use lp_door::{line_of, message_of};
use lp_events::octets::Octets;
use std::alloc::{AllocError, Global};
use std::io::{Read, Write};
use std::marker::Model;
use tungstenite::{CloseCode, CloseFrame, Error, Message, NoMask, Utf8Bytes, WebSocket};

/// What came of a player.
#[derive(Debug, Drop)]
pub enum DoorIn {
    /// A line, of a text message.
    Line(Octets),
    /// Nothing that concerns a game: a ping or a pong.
    Ignored,
    /// The other side closes, or has sent a binary message and is closed for that. Nothing more comes.
    Closing,
}

/// Why a call did nothing.
#[derive(Clone, Copy, Debug, PartialEq, Eq)]
pub enum DoorFault {
    /// The stream failed, would block or ended, or its bytes are no WebSocket's.
    Socket,
    /// There was no memory.
    NoMemory,
}

/// The server's side of a WebSocket over a stream.
#[derive(Drop)]
pub struct Door<S> {
    alloc: Global,
    socket: WebSocket<S, NoMask>,
}

impl<S> Model for Door<S> {
    ghost use Rattle.tungstenite.specs.Socket.{Socket, socket_code};

    ghost Value = { Socket S };

    ghost coded = { socket_code S.code };

    ghost view = { λ d. d.socket };
}

// A fault of a socket as one of a door.
pub(crate) fn fault_of(error: Error) -> DoorFault {
    match error {
        Error::OutOfMemory => DoorFault::NoMemory,
        _ => DoorFault::Socket,
    }
}

// The bytes of characters.
fn spelled(alloc: Global, text: &[char]) -> Result<String, AllocError>
    ensures { IfOk result (λ s. string_bytes s ≡ encode_utf8_all text.now) }
{
    let mut bytes = String::new(alloc);
    for c in text {
        bytes.push(*c)?;
    }
    Ok(bytes)
}

// The text message of the bytes of whole outputs.
fn text_message(alloc: Global, piece: &[u8]) -> Result<Message, AllocError>
    ensures { IfOk result (λ m. content_of m ≡ text_content (encode_utf8_all (message_of_bytes piece.now))) }
{
    let text = message_of(alloc, piece)?;
    let bytes = spelled(alloc, text.as_slice())?;
    Message::text(alloc, bytes.as_str())
}

// A close with a code and no reason.
fn close_with(code: CloseCode) -> Option<CloseFrame> {
    Some(CloseFrame {
        code,
        reason: Utf8Bytes::from_static(""),
    })
}

impl<S: Drop> Door<S> {
    // A door over a socket whose handshake is done.
    pub(crate) fn over(alloc: Global, socket: WebSocket<S, NoMask>) -> Door<S>
        ensures { result ≡ socket }
    {
        Door { alloc, socket }
    }

    /// The stream.
    pub fn stream(&mut self) -> &mut S {
        self.socket.get_mut()
    }
}

impl<S: Read + Write + Drop> Door<S> {
    /// A door over a stream on which the server's handshake was made. On a refusal, and where the stream would block, the stream is
    /// dropped. A handshake that may wait is a `Knocking`.
    ///
    /// # Errors
    /// `Socket` where the bytes ask for no WebSocket or the stream fails, `NoMemory`.
    pub fn accept(alloc: Global, stream: S) -> Result<Door<S>, DoorFault>
        ensures { IfOk result Serves }
    {
        match Knocking::new(alloc, stream).go_on() {
            Greeted::Open(door) => Ok(door),
            Greeted::Waiting(_) => Err(DoorFault::Socket),
            Greeted::Refused(fault) => Err(fault),
        }
    }

    /// What came next. A text message is its line; a binary one begins a close with code 1003.
    ///
    /// # Errors
    /// `Socket` where the read of the socket answered an error, also that the stream would block; `NoMemory`, and then a message may be lost.
    pub fn read(&mut self) -> Result<DoorIn, DoorFault>
        ensures heard { IfOk result (Heard S.remaining self.old) }
        ensures line { IfOk result (LineHeard S.remaining self.old self.new) }
        ensures failed { IfErr result (ReadFailed S.remaining self.old self.new) }
    {
        match self.socket.read() {
            Ok(message) => self.take_in(message),
            Err(error) => Err(fault_of(error)),
        }
    }

    // A message that was read.
    fn take_in(&mut self, message: Message) -> Result<DoorIn, DoorFault>
        ensures means { IfOk result (Means (content_of message)) }
        ensures stays { OnOk result (Stays (content_of message) self.old self.new) }
        ensures memory { IfErr result (λ f. f ≡ fault.NoMemory) }
    {
        match message {
            Message::Text(text) => self.line(text),
            Message::Binary(_) => {
                self.begin_close(CloseCode::Unsupported);
                Ok(DoorIn::Closing)
            }
            Message::Close(_) => Ok(DoorIn::Closing),
            Message::Ping(_) => Ok(DoorIn::Ignored),
            Message::Pong(_) => Ok(DoorIn::Ignored),
        }
    }

    // A text message as a line.
    fn line(&self, text: Utf8Bytes) -> Result<DoorIn, DoorFault>
        ensures line { IfOk result (λ d. d ≡ came.Line (line_of_message text)) }
        ensures memory { IfErr result (λ f. f ≡ fault.NoMemory) }
    {
        match line_of(self.alloc, text.as_str().as_bytes()) {
            Ok(line) => Ok(DoorIn::Line(line)),
            Err(_) => Err(DoorFault::NoMemory),
        }
    }

    /// Sends the bytes of whole outputs as one text message.
    ///
    /// # Errors
    /// `Socket` where the send of the socket answered an error, `NoMemory`, and then nothing was sent.
    pub fn send(&mut self, piece: &[u8]) -> Result<(), DoorFault>
        ensures { OnOk result (Said S.contents self.old self.new piece.now) }
    {
        let message = match text_message(self.alloc, piece) {
            Ok(message) => message,
            Err(_) => return Err(DoorFault::NoMemory),
        };
        match self.socket.send(message) {
            Ok(()) => Ok(()),
            Err(error) => Err(fault_of(error)),
        }
    }

    // Begins a close. What that answers is not asked: the next read tells.
    fn begin_close(&mut self, code: CloseCode) {
        let _ = self.socket.close(close_with(code));
    }

    /// Begins a close, as a server does that has nothing more to say. The other side's answer is read as `Closing`.
    pub fn close(&mut self) {
        self.begin_close(CloseCode::Normal);
    }

    /// Sends what waits to be sent, as a reply to a close.
    ///
    /// # Errors
    /// `Socket` where the stream fails or would block, `NoMemory`.
    pub fn flush(&mut self) -> Result<(), DoorFault> {
        match self.socket.flush() {
            Ok(()) => Ok(()),
            Err(error) => Err(fault_of(error)),
        }
    }
}
