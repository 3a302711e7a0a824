//! A handshake, which may stop where its stream would block.
ghost use Rattle.std.specs.Prelude.{⊤};
ghost use Rattle.tungstenite.specs.Heads.{Serves};
ghost use Rattle.lp_wsdoor.specs.Greeting.{OnOpen};

use crate::door::{Door, DoorFault, fault_of};
use std::alloc::Global;
use std::io::{Read, Write};
use tungstenite::handshake::server::start;
use tungstenite::{HandshakeError, MidHandshake, NoCallback, ServerHandshake, WebSocketConfig};

/// The most bytes of a message, and of a frame: the line of a message is at most 4096, and what is longer ends the connection before
/// it is read.
const MOST_OF_A_MESSAGE: usize = 65536;

/// How many bytes one read of the stream asks for.
const READ: usize = 4096;

/// A handshake that is not at its end.
#[derive(Drop)]
pub struct Knocking<S: Read + Write + Drop> {
    alloc: Global,
    handshake: MidHandshake<ServerHandshake<S, NoCallback>>,
}

/// What a handshake has come to.
#[derive(Drop)]
pub enum Greeted<S: Read + Write + Drop> {
    /// A door.
    Open(Door<S>),
    /// The stream would block: the handshake is to go on once it has more.
    Waiting(Knocking<S>),
    /// The bytes ask for no WebSocket, the stream failed or memory ran out. The stream was dropped.
    Refused(DoorFault),
}

// The limits of a door's socket.
fn limits() -> WebSocketConfig {
    WebSocketConfig::default()
        .read_buffer_size(READ)
        .max_message_size(Some(MOST_OF_A_MESSAGE))
        .max_frame_size(Some(MOST_OF_A_MESSAGE))
}

impl<S: Read + Write + Drop> Knocking<S> {
    /// A handshake over a stream of which nothing was read.
    pub fn new(alloc: Global, stream: S) -> Knocking<S> {
        Knocking {
            alloc,
            handshake: start(alloc, stream, NoCallback, Some(limits())),
        }
    }

    /// The stream.
    pub fn stream(&mut self) -> &mut S {
        self.handshake.get_mut()
    }

    /// Goes on with the handshake as far as the stream has bytes.
    pub fn go_on(self) -> Greeted<S>
        ensures { OnOpen result Serves }
    {
        let Knocking { alloc, handshake } = self;
        match handshake.handshake() {
            Ok(socket) => Greeted::Open(Door::over(alloc, socket)),
            Err(HandshakeError::Interrupted(handshake)) => {
                Greeted::Waiting(Knocking { alloc, handshake })
            }
            Err(HandshakeError::Failure(error)) => Greeted::Refused(fault_of(error)),
        }
    }
}
