//! What open productions add to the levels of their open part.
ghost use Rattle.std.specs.Prelude.{◌≡◌, ℕ, option_map};
ghost use Rattle.lp_parser_expr.specs.Capped.{capped};
ghost use Rattle.lp_parser_expr.specs.Depth.{callee_height, makes, up};
ghost use Rattle.lp_parser_expr.specs.Levels.{IsLift, beside as levels_beside, wants_place as part_is_place, is_alone as is_no_frame, ended};
ghost use Rattle.lp_parser_expr.specs.View.{callee_of, frame_of};

use crate::frame::{Callee, Frame};
use crate::open::Lift;
use crate::tall::deeper;

/// The levels of the object whose function is called.
pub fn callee_levels(callee: &Callee) -> u32
    ensures { result ≡ capped (callee_height (callee_of callee.now)) }
{
    match callee {
        Callee::Other(of) => of.height,
        _ => 0,
    }
}

/// The levels of the parts beside the open one.
pub fn beside(frame: &Frame) -> u32
    ensures { result ≡ capped (levels_beside (frame_of frame.now)) }
{
    match frame {
        Frame::InArray(_, done) => done.tallest,
        Frame::AtKey(_, done) => done.tallest.max(1),
        Frame::AtValue(_, done, key) => done.tallest.max(key.height),
        Frame::InArgs(callee, _, done) => callee_levels(callee).max(done.tallest),
        Frame::ScanText(_) => 1,
        Frame::ScanForm(_, text) => text.height,
        Frame::ScanPlaces(_, text, form, done) => text.height.max(form.height.max(done.tallest)),
        Frame::InIndex(of, _) => of.height,
        Frame::InRange(of, from, _) => of.height.max(from.height),
        Frame::LeftOf(_, left) => left.height,
        Frame::Testing(test) => test.height.max(1),
        Frame::Choosing(test, yes) => test.height.max(yes.height),
        Frame::Assigning(_, place) => place.height,
        Frame::InSequence(_, done) => done.tallest,
        _ => 0,
    }
}

// Whether the open part has to be a place.
fn wants_place(frame: &Frame) -> bool
    ensures { result ≡ part_is_place (frame_of frame.now) }
{
    match frame {
        Frame::ScanPlaces(_, _, _, _) | Frame::Stepping(_, _) => true,
        _ => false,
    }
}

// Whether it is no production.
fn is_alone(frame: &Frame) -> bool
    ensures { result ≡ is_no_frame (frame_of frame.now) }
{
    match frame {
        Frame::Alone => true,
        _ => false,
    }
}

/// Whether a production is a place.
pub fn makes_place(frame: &Frame) -> bool
    ensures { result ≡ makes (frame_of frame.now) }
{
    match frame {
        Frame::InIndex(_, _) => true,
        _ => false,
    }
}

/// What a production adds to the levels of its open part.
pub fn own_lift(frame: &Frame, is_place: bool) -> Lift
    ensures { IsLift result (up (frame_of frame.now) is_place) }
{
    let floor = deeper(beside(frame));
    if is_alone(frame) {
        return Lift { floor: 0, rise: 0 };
    }
    if wants_place(frame) && !is_place {
        // what is no place yet is indexed, by something of one level
        return Lift {
            floor: floor.max(3),
            rise: 2,
        };
    }
    Lift { floor, rise: 1 }
}

/// One lift inside another.
pub fn inside(outer: Lift, inner: Lift) -> Lift
    ensures { (f g : ℕ → ℕ) → IsLift outer g → IsLift inner f → IsLift result (λ h. g (f h)) }
{
    Lift {
        floor: outer.floor.max(inner.floor.saturating_add(outer.rise)),
        rise: outer.rise.saturating_add(inner.rise),
    }
}

/// The levels of a whole whose part has this many.
pub fn lifted(lift: Lift, height: u32) -> u32
    ensures { (f : ℕ → ℕ) (n : ℕ) → IsLift lift f → height ≡ capped n → result ≡ capped (f n) }
{
    lift.floor.max(height.saturating_add(lift.rise))
}

/// The levels of a production that may end where its next part could begin.
pub fn levels_ended(frame: &Frame) -> Option<u32>
    ensures { result ≡ option_map capped (ended (frame_of frame.now)) }
{
    match frame {
        Frame::InArgs(_, _, _) | Frame::InArray(_, _) | Frame::ScanPlaces(_, _, _, _) => Some(
            deeper(beside(frame)),
        ),
        Frame::AtKey(_, done) => Some(deeper(done.tallest)),
        Frame::InParen(_) => Some(1),
        _ => None,
    }
}
