//! Commands of living objects. Each is a job that tells what it asks, and is told what was answered; and the efun that begins one.
#![tactic(auto)]

pub mod begin;
pub mod efun;
pub mod feed;
pub mod job;
pub mod line;
pub mod next;
mod telling;
mod trying;
