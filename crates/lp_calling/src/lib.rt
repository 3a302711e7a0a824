//! Efuns that call LPC. Each is a job that tells what it asks, and is told what was answered; its values lie on the one stack.
#![tactic(auto)]

mod audience;
pub mod begin;
mod call;
mod deeds;
mod ends;
mod enter;
pub mod feed;
mod items;
pub mod job;
mod laying;
pub mod leave;
mod load;
mod messages;
pub mod moving;
pub mod next;
mod search;
mod target;
pub mod wish;
