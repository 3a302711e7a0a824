//! Call-outs in order.
ghost use Rattle.std.specs.Prelude.{◌≡◌};
ghost use Rattle.std.specs.List.Sorted.{IsStrictlySortedBy};
ghost use Rattle.lp_timers.specs.Spots.{spot_cmp, first_spot as first_in};

use std::collections::BTreeSet;

/// Where a call-out stands among those of its group: by its moment, then by its number.
#[derive(Clone, Copy, Debug, PartialEq, Eq, PartialOrd, Ord)]
pub(crate) struct Spot {
    pub(crate) group: u64,
    pub(crate) due: u64,
    pub(crate) number: u64,
}

/// The first of a group.
pub(crate) fn first_spot(spots: &BTreeSet<Spot>, group: u64) -> Option<Spot>
    ensures first { result ≡ first_in group spots.now.keys }
    ensures ordered { IsStrictlySortedBy spot_cmp spots.now.keys }
{
    let first = Spot {
        group,
        due: 0,
        number: 0,
    };
    match spots.range(first..).next() {
        Some(spot) if spot.group == group => Some(*spot),
        _ => None,
    }
}
