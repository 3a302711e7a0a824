//! What no clause says of sockets and folders: that bytes come and go, and that files are there.
//!
//! The tests stand here and not beside the code, so that no library is proved twice.
#![tactic(auto)]

#[cfg(test)]
mod folder;
#[cfg(test)]
mod loopback;
