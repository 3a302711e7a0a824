//! Reading each kind of item.
ghost use Rattle.std.specs.Prelude.{◌≡◌, ℕ, List, ◌-◌, ◌^◌, Ok, min, IfOk, string_bytes};
ghost use Rattle.std.specs.Str.{IsUtf8};
ghost use Rattle.std.specs.Prelude.{◌++◌};
ghost use Rattle.lp_events.specs.declared.item.Item.{Item as I};
ghost use Rattle.lp_events.specs.Script.{Context, Fits, spelling};
ghost use Rattle.lp_script.specs.Before.{context_of};
ghost use Rattle.lp_script.specs.Reads.{ReadsItem};
ghost use Rattle.lp_script.specs.Reading.{Gives, is_one_of, begins_one_of, number_named};
ghost use Rattle.lp_script.specs.Items.{between_at as between_at_lem, count_at as count_at_lem, Counts, one_of_at as one_of_at_lem, path_at as path_at_lem, name_at as name_at_lem, file_bytes_at as file_bytes_at_lem, line_bytes_at as line_bytes_at_lem, head_at as head_at_lem, file_at as file_at_lem, start_at as start_at_lem, connect_at as connect_at_lem, line_at as line_at_lem, gone_at as gone_at_lem, tick_at as tick_at_lem, reload_at as reload_at_lem, swap_at as swap_at_lem, end_at as end_at_lem, running_at as running_at_lem, item_at as item_at_lem};

use crate::before::{Before, Stage};
use crate::connections::Connections;
use crate::number::{begins_any, begins_between, is_numeral, number_between, value};
use crate::stop::{ReadError, Stop};
use crate::word::{bytes_at, split_word, text_at};
use lp_events::event::Event;
use lp_events::item::Item;
use lp_events::octets::{ObjectName, Octets};
use lp_tree::path::FilePath;
use lp_words::path::{begins_name, begins_path, is_above, is_name, is_path};
use std::alloc::{AllocError, Global};

/// The most seconds of a moment.
pub(crate) const LAST_MOMENT: u64 = 1_000_000_000_000;

#[tactic(auto, unfolding(crate::specs::Items::between_at))]
fn between_at(low: u64, high: u64, end: u8, bytes: &[u8]) -> Result<(u64, &[u8]), ReadError>
    ensures { Gives (λ x. (x.0, x.1.now)) result (between_at_lem low high end bytes.now) }
{
    match split_word(end, bytes) {
        None if begins_between(low, high, bytes) => Err(ReadError::Stop(Stop::Short)),
        None => Err(ReadError::Stop(Stop::Wrong)),
        Some((word, rest)) => match number_between(low, high, word) {
            Some(n) => Ok((n, rest)),
            None => Err(ReadError::Stop(Stop::Wrong)),
        },
    }
}

// How many bytes follow, or `u128::MAX` where it is more.
#[tactic(auto, unfolding(crate::specs::Items::count_at))]
fn count_at(bytes: &[u8]) -> Result<(u128, &[u8]), ReadError>
    ensures { Counts result (count_at_lem bytes.now) }
{
    match split_word(b'\n', bytes) {
        None if begins_any(bytes) => Err(ReadError::Stop(Stop::Short)),
        None => Err(ReadError::Stop(Stop::Wrong)),
        Some((word, rest)) => {
            if is_numeral(word) {
                Ok((value(word), rest))
            } else {
                Err(ReadError::Stop(Stop::Wrong))
            }
        }
    }
}

#[tactic(auto, unfolding(crate::specs::Items::file_bytes_at))]
fn file_bytes_at(alloc: Global, bytes: &[u8]) -> Result<(Octets, &[u8]), ReadError>
    ensures { Gives (λ x. (x.0, x.1.now)) result (file_bytes_at_lem bytes.now) }
{
    let (n, rest) = count_at(bytes)?;
    bytes_at(alloc, false, n, rest)
}

#[tactic(auto, unfolding(crate::specs::Items::line_bytes_at))]
fn line_bytes_at(alloc: Global, bytes: &[u8]) -> Result<(Octets, &[u8]), ReadError>
    ensures { Gives (λ x. (x.0, x.1.now)) result (line_bytes_at_lem bytes.now) }
{
    let (n, rest) = between_at(0, 4096, b'\n', bytes)?;
    bytes_at(alloc, true, u128::from(n), rest)
}

// A connection that is not gone.
#[tactic(auto, unfolding(crate::specs::Items::one_of_at))]
fn connection_at<'a>(
    connections: &Connections,
    end: u8,
    bytes: &'a [u8],
) -> Result<(u32, &'a [u8]), ReadError>
    ensures { Gives (λ x. (x.0, x.1.now)) result (one_of_at_lem connections.now end bytes.now) }
{
    match split_word(end, bytes) {
        None if connections.begins(bytes) => Err(ReadError::Stop(Stop::Short)),
        None => Err(ReadError::Stop(Stop::Wrong)),
        Some((word, rest)) => match connections.named(word) {
            Some(k) => Ok((k, rest)),
            None => Err(ReadError::Stop(Stop::Wrong)),
        },
    }
}

#[tactic(auto, unfolding(crate::specs::Items::head_at))]
fn head_at(bytes: &[u8]) -> Result<(Item, &[u8]), ReadError>
    ensures { Gives (λ x. (x.0, x.1.now)) result (head_at_lem bytes.now) }
{
    let rest = text_at(b"mudscript 1 ", bytes)?;
    let (seed, rest) = between_at(0, u64::MAX, b' ', rest)?;
    let (moment, rest) = between_at(0, LAST_MOMENT, b'\n', rest)?;
    Ok((Item::Head(seed, moment), rest))
}

#[tactic(auto, unfolding(crate::specs::Items::start_at))]
fn start_at(bytes: &[u8]) -> Result<(Item, &[u8]), ReadError>
    ensures { Gives (λ x. (x.0, x.1.now)) result (start_at_lem bytes.now) }
{
    let rest = text_at(b"start\n", bytes)?;
    Ok((Item::Start, rest))
}

#[tactic(auto, unfolding(crate::specs::Items::end_at))]
fn end_at(bytes: &[u8]) -> Result<(Item, &[u8]), ReadError>
    ensures { Gives (λ x. (x.0, x.1.now)) result (end_at_lem bytes.now) }
{
    let rest = text_at(b"end\n", bytes)?;
    Ok((Item::End, rest))
}

#[tactic(auto, unfolding(crate::specs::Items::connect_at))]
fn connect_at(highest: u32, bytes: &[u8]) -> Result<(Item, &[u8]), ReadError>
    ensures { Gives (λ x. (x.0, x.1.now)) result (connect_at_lem highest bytes.now) }
{
    if highest == u32::MAX {
        return Err(ReadError::Stop(Stop::Wrong));
    }
    let rest = text_at(b"connect ", bytes)?;
    let (k, rest) = between_at(u64::from(highest) + 1, u64::from(u32::MAX), b'\n', rest)?;
    Ok((Item::Event(Event::Connect(k as u32)), rest))
}

#[tactic(auto, unfolding(crate::specs::Items::line_at))]
fn line_at<'a>(
    alloc: Global,
    connections: &Connections,
    bytes: &'a [u8],
) -> Result<(Item, &'a [u8]), ReadError>
    ensures { Gives (λ x. (x.0, x.1.now)) result (line_at_lem connections.now bytes.now) }
{
    if connections.is_empty() {
        return Err(ReadError::Stop(Stop::Wrong));
    }
    let rest = text_at(b"line ", bytes)?;
    let (k, rest) = connection_at(connections, b' ', rest)?;
    let (bytes, rest) = line_bytes_at(alloc, rest)?;
    Ok((Item::Event(Event::Line(k, bytes)), rest))
}

#[tactic(auto, unfolding(crate::specs::Items::gone_at))]
fn gone_at<'a>(connections: &Connections, bytes: &'a [u8]) -> Result<(Item, &'a [u8]), ReadError>
    ensures { Gives (λ x. (x.0, x.1.now)) result (gone_at_lem connections.now bytes.now) }
{
    if connections.is_empty() {
        return Err(ReadError::Stop(Stop::Wrong));
    }
    let rest = text_at(b"gone ", bytes)?;
    let (k, rest) = connection_at(connections, b'\n', rest)?;
    Ok((Item::Event(Event::Gone(k)), rest))
}

#[tactic(auto, unfolding(crate::specs::Items::tick_at))]
fn tick_at(moment: u64, bytes: &[u8]) -> Result<(Item, &[u8]), ReadError>
    ensures { Gives (λ x. (x.0, x.1.now)) result (tick_at_lem moment bytes.now) }
{
    if LAST_MOMENT < moment {
        return Err(ReadError::Stop(Stop::Wrong));
    }
    let rest = text_at(b"tick ", bytes)?;
    let (moment, rest) = between_at(moment, LAST_MOMENT, b'\n', rest)?;
    Ok((Item::Event(Event::Tick(moment)), rest))
}

// A path above another one, as text.
#[tactic(auto, using(crate::proofs::Ascii::is_path_utf8), unfolding(crate::specs::Items::path_at))]
fn path_at<'a>(last: &[u8], bytes: &'a [u8]) -> Result<(&'a [u8], &'a [u8]), ReadError>
    ensures gives { Gives (λ x. (x.0.now, x.1.now)) result (path_at_lem last.now bytes.now) }
    ensures text { IfOk result (λ x. IsUtf8 x.0.now) }
{
    match split_word(b' ', bytes) {
        None if begins_path(last, bytes) => Err(ReadError::Stop(Stop::Short)),
        None => Err(ReadError::Stop(Stop::Wrong)),
        Some((word, rest)) => {
            if is_path(word) && is_above(last, word) {
                Ok((word, rest))
            } else {
                Err(ReadError::Stop(Stop::Wrong))
            }
        }
    }
}

#[tactic(auto, using(crate::proofs::Ascii::is_name_utf8), unfolding(crate::specs::Items::name_at))]
fn name_at(bytes: &[u8]) -> Result<(&[u8], &[u8]), ReadError>
    ensures gives { Gives (λ x. (x.0.now, x.1.now)) result (name_at_lem bytes.now) }
    ensures text { IfOk result (λ x. IsUtf8 x.0.now) }
{
    match split_word(b'\n', bytes) {
        None if begins_name(bytes) => Err(ReadError::Stop(Stop::Short)),
        None => Err(ReadError::Stop(Stop::Wrong)),
        Some((word, rest)) => {
            if is_name(word) {
                Ok((word, rest))
            } else {
                Err(ReadError::Stop(Stop::Wrong))
            }
        }
    }
}

// The bytes as a text of their own.
fn text_of(alloc: Global, bytes: &[u8]) -> Result<String, AllocError>
    requires { IsUtf8 bytes.now }
    ensures { IfOk result (λ s. string_bytes s ≡ bytes.now) }
{
    match str::from_utf8(bytes) {
        Ok(text) => String::from_str(alloc, text),
        Err(_) => unreachable!(),
    }
}

#[tactic(auto, unfolding(crate::specs::Items::file_at))]
fn file_at<'a>(alloc: Global, last: &[u8], bytes: &'a [u8]) -> Result<(Item, &'a [u8]), ReadError>
    ensures { Gives (λ x. (x.0, x.1.now)) result (file_at_lem last.now bytes.now) }
{
    if !begins_path(last, &[]) {
        return Err(ReadError::Stop(Stop::Wrong));
    }
    let rest = text_at(b"file ", bytes)?;
    let (path, rest) = path_at(last, rest)?;
    let (bytes, rest) = file_bytes_at(alloc, rest)?;
    let path = FilePath::from_string(text_of(alloc, path)?);
    Ok((Item::File(path, bytes), rest))
}

#[tactic(auto, unfolding(crate::specs::Items::reload_at))]
fn reload_at(alloc: Global, bytes: &[u8]) -> Result<(Item, &[u8]), ReadError>
    ensures { Gives (λ x. (x.0, x.1.now)) result (reload_at_lem bytes.now) }
{
    let rest = text_at(b"reload ", bytes)?;
    let (path, rest) = path_at(&[], rest)?;
    let (bytes, rest) = file_bytes_at(alloc, rest)?;
    let path = FilePath::from_string(text_of(alloc, path)?);
    Ok((Item::Event(Event::Reload(path, bytes)), rest))
}

#[tactic(auto, unfolding(crate::specs::Items::swap_at))]
fn swap_at(alloc: Global, bytes: &[u8]) -> Result<(Item, &[u8]), ReadError>
    ensures { Gives (λ x. (x.0, x.1.now)) result (swap_at_lem bytes.now) }
{
    let rest = text_at(b"swap ", bytes)?;
    let (name, rest) = name_at(rest)?;
    let name = ObjectName::from_string(text_of(alloc, name)?);
    Ok((Item::Event(Event::Swap(name)), rest))
}

// An event that may stand here, or the end of a script.
#[tactic(auto, unfolding(crate::specs::Items::running_at))]
fn running_at<'a>(
    alloc: Global,
    before: &Before,
    bytes: &'a [u8],
) -> Result<(Item, &'a [u8]), ReadError>
    ensures { Gives (λ x. (x.0, x.1.now)) result (running_at_lem (context_of before.now) bytes.now) }
{
    match bytes {
        [] => Err(ReadError::Stop(Stop::Short)),
        [b't', ..] => tick_at(before.moment, bytes),
        [b's', ..] => swap_at(alloc, bytes),
        [b'r', ..] => reload_at(alloc, bytes),
        [b'l', ..] => line_at(alloc, &before.connections, bytes),
        [b'g', ..] => gone_at(&before.connections, bytes),
        [b'e', ..] => end_at(bytes),
        [_, ..] => connect_at(before.highest, bytes),
    }
}

// An item that may stand here.
#[tactic(auto, unfolding(crate::specs::Items::item_at, crate::specs::Items::stage_at))]
fn item_at<'a>(
    alloc: Global,
    before: &Before,
    bytes: &'a [u8],
) -> Result<(Item, &'a [u8]), ReadError>
    ensures { Gives (λ x. (x.0, x.1.now)) result (item_at_lem (context_of before.now) bytes.now) }
{
    match before.stage {
        Stage::Beginning => head_at(bytes),
        Stage::Filing => match bytes {
            [] => Err(ReadError::Stop(Stop::Short)),
            [b's', ..] => start_at(bytes),
            [_, ..] => file_at(alloc, before.last_path.as_slice(), bytes),
        },
        Stage::Running => running_at(alloc, before, bytes),
        Stage::Over => Err(ReadError::Stop(Stop::Wrong)),
    }
}

/// Reads the item that stands at the front of these bytes, behind what stands before it.
///
/// - `Short`: the bytes run out within an item that may stand there.
/// - `Wrong`: no item that may stand there begins so.
/// - `NoMemory`: there is no memory for the item.
#[tactic(auto, using(crate::proofs::ReadsLemmas::reads_item))]
pub fn read_item<'a>(
    alloc: Global,
    before: &Before,
    bytes: &'a [u8],
) -> Result<(Item, &'a [u8]), ReadError>
    ensures { ReadsItem (context_of before.now) bytes.now result }
{
    item_at(alloc, before, bytes)
}

/// No spelling of an item is a front of another's: where two items may stand at one place, bytes
/// begin with the spelling of one of them at most.
#[tactic(auto, using(crate::proofs::ReadsLemmas::one_spelling_lem))]
pub fn one_spelling()
    ensures { (c : Context) (x y : I) (a b : List ℕ) → Fits c x → Fits c y → spelling x ++ a ≡ spelling y ++ b → x ≡ y }
{}
