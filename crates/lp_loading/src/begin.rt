//! Loads begin.
ghost use Rattle.std.specs.Prelude.{◌≡◌, ◌≤◌, IfErr, IfOk, IfSome};
ghost use Rattle.lp_language.specs.Course.{Ask};
ghost use Rattle.lp_loading.specs.Telling.{IsDeviceless};
ghost use Rattle.lp_loading.specs.Going.{BeginsAs, IsPaid};
ghost use Rattle.lp_loading.specs.Loads.{kind_of, last_nested, loads_of};
ghost use Rattle.lp_meaning.specs.FileLoads.{nested_in as nested};

use crate::job::{Begun, LoadFault, LoadJob, Purpose};
use lp_asking::asker::Loading;
use lp_values::text::Text;
use std::alloc::Global;

/// What a load costs.
const PRICE: u64 = 1000;

/// How many loads for an `inherit` led to one behind these, or as many as stand there where there are none.
fn nested_behind(loads: &[Loading], before: u32) -> Option<u32>
    ensures { IfSome result (λ n. n ≡ last_nested before loads.now) }
{
    match loads {
        [l, rest @ ..] => {
            if l.nested == u32::MAX {
                return None;
            }
            nested_behind(rest, l.nested + 1)
        }
        [] => Some(before),
    }
}

/// How many loads for an `inherit` led to a load, itself among them.
fn nested_of(purpose: Purpose, loads: &[Loading]) -> Option<u32>
    ensures { IfSome result (λ n. n ≡ nested (kind_of purpose) (loads_of loads.now)) }
{
    match purpose {
        Purpose::Wanted => Some(0),
        Purpose::Inherited => nested_behind(loads, 1),
    }
}

/// A load of a name begins, while these loads are under way, the innermost last: its price is paid, or the budget is spent. It is
/// the innermost under way then, which the caller notes.
///
/// # Errors
/// `NoMemory`, also where 2^32 loads led to it.
pub fn begin(
    alloc: Global,
    name: &[char],
    purpose: Purpose,
    loads: &[Loading],
    budget: &mut u64,
) -> Result<Begun, LoadFault>
    ensures begins { IfOk result (λ r. (a : Ask) → a.budget ≡ budget.old → a.loads ≡ loads_of loads.now → BeginsAs r name.now purpose loads.now a budget.new) }
    ensures pays { IfOk result (λ r. IsPaid r budget.old budget.new) }
    ensures spends { budget.new ≤ budget.old }
    ensures fault { IfErr result IsDeviceless }
{
    if *budget < PRICE {
        *budget = 0;
        return Ok(Begun::Spent);
    }
    *budget -= PRICE;
    let name = Text::from_slice(alloc, name)?;
    match nested_of(purpose, loads) {
        Some(nested) => Ok(Begun::Runs(LoadJob {
            name,
            purpose,
            nested,
            made: Vec::new(alloc),
        })),
        None => Err(LoadFault::NoMemory),
    }
}
