//! The turns of the driver as jobs: what a turn does by itself, which calls it asks for, and how it goes on when they ended.
//!
//! No function runs while a turn goes on: the driver carries out what it asks for, each call with a full budget.
#![tactic(auto)]

pub mod begin;
mod call_outs;
mod connecting;
mod ends;
pub mod feed;
mod heart_beats;
pub mod job;
mod lines;
mod master;
pub mod next;
mod outputs;
pub mod reloads;
mod simul;
pub mod start_feed;
pub mod start_job;
mod start_master;
pub mod starting;
mod tick_feed;
pub mod tick_job;
mod tick_next;
pub mod ticks;
mod watches;
