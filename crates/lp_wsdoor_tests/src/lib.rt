//! What no clause says of players in a browser: that calls succeed, the bytes of whole talks, and what a wire gives and takes.
//!
//! The handshake and the frames of `Hello` are the examples of the WebSocket protocol's own specification.
#![tactic(auto)]

#[cfg(test)]
mod both;
#[cfg(test)]
mod stream;
#[cfg(test)]
mod talk;
