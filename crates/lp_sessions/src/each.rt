//! Connections by rising numbers, as a vector.
ghost use Rattle.std.specs.Prelude.{◌≡◌, ◌<◌, ◌≤◌, ◌+◌, ℕ, List, Some, length, drop, get_or, IfSome, IfNone, OnOk, OnErr, nat_lt, false};
ghost use Rattle.std.specs.Ordering.{nat_cmp};
ghost use Rattle.lp_sessions.specs.All.{AreAbove, AreOther, TakesOut, TakesOuts, TakesSome, TellsAll, goes_to, numbers};
ghost use Rattle.lp_sessions.specs.Index.{AreIdleAt, IsIndex, IsListed};
ghost use Rattle.lp_sessions.specs.Serving.{AreQuick, IsSlowest};
ghost use Rattle.lp_wire.specs.Heard.{most_pending};
ghost use Rattle.lp_sessions.specs.declared.session.Session.{Session as S};

use crate::session::Session;
use crate::sessions::MOST_PENDING;
use lp_events::out::Out;
use lp_wire::wire::Wire;
use std::alloc::AllocError;
use std::cmp::Ordering;

// The place of a connection. The numbers rise, so a binary search finds it.
pub(crate) fn place_among(sessions: &[Session], number: u32) -> Option<usize>
    requires { AreAbove 0 (numbers sessions.now) }
    ensures within { IfSome result (λ i. i < length sessions.now) }
    ensures found { IfSome result (λ i. (d : S) → (get_or sessions.now i d).number ≡ number) }
    ensures none { IfNone result (AreOther number sessions.now) }
{
    let place = sessions.binary_search_by(
        |own: &Session| -> Ordering
            ensures { result ≡ nat_cmp own.now.number number }
        { own.number.cmp(&number) },
    );
    match place {
        Ok(i) => Some(i),
        Err(_) => None,
    }
}

// The place of a connection among those from a place on.
fn place_behind(sessions: &[Session], done: usize, number: u32) -> Option<usize>
    requires table { AreAbove 0 (numbers sessions.now) }
    requires done { done ≤ length sessions.now }
    ensures within { IfSome result (λ i. i < length sessions.now) }
    ensures behind { IfSome result (λ i. done ≤ i) }
    ensures found { IfSome result (λ i. (d : S) → (get_or sessions.now i d).number ≡ number) }
    ensures none { IfNone result (AreOther number (drop done sessions.now)) }
{
    let (_, behind) = sessions.split_at(done);
    match place_among(behind, number) {
        Some(i) => Some(done + i),
        None => None,
    }
}

// Offers each connection on the list what is pending for it, one after another. Takes no memory.
pub(crate) fn offer_listed<N: Wire>(sessions: &mut Vec<Session>, listed: &[u32], wire: &mut N)
    requires table { AreAbove 0 (numbers sessions.now.items) }
    requires index { IsIndex listed.now sessions.now.items }
    ensures tells { TellsAll sessions.old.items sessions.new.items (N.calls wire.old) (N.calls wire.new) }
    ensures numbers { numbers sessions.new.items ≡ numbers sessions.old.items }
    ensures index { IsIndex listed.now sessions.new.items }
    ensures faults { N.faults wire.new ≡ N.faults wire.old }
    ensures first { N.first wire.new ≡ N.first wire.old }
{
    let mut done = 0;
    for at in 0..listed.len() {
        match place_behind(sessions.as_slice(), done, listed[at]) {
            Some(i) => {
                sessions[i].offer(wire);
                done = i + 1;
            }
            None => {}
        }
    }
}

// Whether something is to be done for a connection.
fn is_waiting(sessions: &[Session], number: u32) -> bool
    requires { AreAbove 0 (numbers sessions.now) }
    ensures { result ≡ false → AreIdleAt number sessions.now }
{
    match place_among(sessions, number) {
        Some(i) => sessions[i].is_waiting(),
        None => false,
    }
}

// Takes the number at a place off the list, if nothing is to be done for its connection, or if that is not there. Takes no memory.
fn forget_at(listed: &mut Vec<u32>, sessions: &[Session], at: usize)
    requires table { AreAbove 0 (numbers sessions.now) }
    requires index { IsIndex listed.now.items sessions.now }
    requires within { at < length listed.now.items }
    ensures index { IsIndex listed.new.items sessions.now }
    ensures long { length listed.old.items ≤ length listed.new.items + 1 }
{
    if !is_waiting(sessions, listed[at]) {
        listed.remove(at);
    }
}

// Takes those off the list for which nothing is to be done, and those that are not there. Takes no memory.
pub(crate) fn forget_idle(listed: &mut Vec<u32>, sessions: &[Session])
    requires table { AreAbove 0 (numbers sessions.now) }
    requires index { IsIndex listed.now.items sessions.now }
    ensures index { IsIndex listed.new.items sessions.now }
{
    let count = listed.len();
    for behind in 0..count {
        forget_at(listed, sessions, count - 1 - behind);
    }
}

// Puts a number on the list, unless it is there. Where memory is wanting nothing changes.
fn put_on(listed: &mut Vec<u32>, number: u32) -> Result<(), AllocError>
    requires rising { AreAbove 0 listed.now.items }
    requires number { 0 < number }
    ensures listed { OnOk result (IsListed number listed.new.items) }
    ensures index { (ss : List S) → IsIndex listed.old.items ss → IsIndex listed.new.items ss }
{
    match listed.binary_search(&number) {
        Ok(_) => Ok(()),
        Err(at) => match listed.insert(at, number) {
            Ok(()) => Ok(()),
            Err(_) => Err(AllocError),
        },
    }
}

// The connection that an output is for.
fn number_of(out: &Out) -> Option<u32>
    ensures { result ≡ goes_to out.now }
{
    match out {
        Out::Text(k, _) => Some(*k),
        Out::Hide(k) => Some(*k),
        Out::Show(k) => Some(*k),
        Out::Close(k) => Some(*k),
        Out::Log(_) => None,
    }
}

// Takes an output in by the connection at a place, which is put on the list. Where memory is wanting no connection changes.
fn take_at(
    sessions: &mut Vec<Session>,
    listed: &mut Vec<u32>,
    i: usize,
    out: &Out,
) -> Result<(), AllocError>
    requires table { AreAbove 0 (numbers sessions.now.items) }
    requires index { IsIndex listed.now.items sessions.now.items }
    requires within { i < length sessions.now.items }
    requires goes { (d : S) → goes_to out.now ≡ Some (get_or sessions.now.items i d).number }
    ensures ok { OnOk result (TakesOut out.now sessions.old.items sessions.new.items) }
    ensures numbers { numbers sessions.new.items ≡ numbers sessions.old.items }
    ensures index { IsIndex listed.new.items sessions.new.items }
    ensures err { OnErr result (sessions.new.items ≡ sessions.old.items) }
{
    put_on(listed, sessions[i].number)?;
    sessions[i].take_out(out)
}

// Takes one output in. Where memory is wanting no connection changes.
fn take_one(sessions: &mut Vec<Session>, listed: &mut Vec<u32>, out: &Out) -> Result<(), AllocError>
    requires table { AreAbove 0 (numbers sessions.now.items) }
    requires index { IsIndex listed.now.items sessions.now.items }
    ensures ok { OnOk result (TakesOut out.now sessions.old.items sessions.new.items) }
    ensures numbers { numbers sessions.new.items ≡ numbers sessions.old.items }
    ensures index { IsIndex listed.new.items sessions.new.items }
    ensures err { OnErr result (sessions.new.items ≡ sessions.old.items) }
{
    let k = match number_of(out) {
        Some(k) => k,
        None => return Ok(()),
    };
    match place_among(sessions.as_slice(), k) {
        Some(i) => take_at(sessions, listed, i, out),
        None => Ok(()),
    }
}

// Takes outputs in, one after another. Where memory is wanting those before the first that found none were taken in.
pub(crate) fn take_each(
    sessions: &mut Vec<Session>,
    listed: &mut Vec<u32>,
    outs: &[Out],
) -> Result<(), AllocError>
    requires table { AreAbove 0 (numbers sessions.now.items) }
    requires index { IsIndex listed.now.items sessions.now.items }
    ensures ok { OnOk result (TakesOuts outs.now sessions.old.items sessions.new.items) }
    ensures numbers { numbers sessions.new.items ≡ numbers sessions.old.items }
    ensures index { IsIndex listed.new.items sessions.new.items }
    ensures err { OnErr result (TakesSome outs.now sessions.old.items sessions.new.items) }
{
    for out in outs {
        take_one(sessions, listed, out)?;
    }
    Ok(())
}

// Whether too much is pending for a connection.
#[tactic(auto, unfolding(lp_wire::specs::Heard::most_pending))]
fn is_slow(session: &Session) -> bool
    ensures { result ≡ nat_lt most_pending (length session.now.outbox) }
{
    session.outbox.pending() > MOST_PENDING
}

// The first connection for which too much is pending, among those on the list.
pub(crate) fn slowest_listed(sessions: &[Session], listed: &[u32]) -> Option<usize>
    requires table { AreAbove 0 (numbers sessions.now) }
    requires index { IsIndex listed.now sessions.now }
    ensures some { IfSome result (λ i. IsSlowest i sessions.now) }
    ensures none { IfNone result (AreQuick sessions.now) }
{
    let mut done = 0;
    for at in 0..listed.len() {
        match place_behind(sessions, done, listed[at]) {
            Some(i) => {
                if is_slow(&sessions[i]) {
                    return Some(i);
                }
                done = i + 1;
            }
            None => {}
        }
    }
    None
}
