//! How many went out and were kept.
ghost use Rattle.std.specs.Prelude.{◌≡◌, ◌<◌, ◌≤◌, ◌+◌, ◌-◌, ◌^◌};
ghost use Rattle.lp_residence.specs.Idling.{counted as with_one, none_yet, together};

use lp_residence::answers::{Idled, PutOut};

/// Nothing went out, and nothing was kept.
pub fn none_out() -> Idled
    ensures { result ≡ none_yet }
{
    Idled {
        out: 0,
        fault: 0,
        full: 0,
    }
}

/// One more that went out or was kept. What was out already, or is not there, does not count.
pub(crate) fn counted(counts: Idled, answer: PutOut) -> Idled
    requires few { together counts < 2 ^ 64 - 1 }
    ensures counts { result ≡ with_one answer counts }
    ensures few { together result ≤ together counts + 1 }
{
    match answer {
        PutOut::Out => Idled {
            out: counts.out + 1,
            fault: counts.fault,
            full: counts.full,
        },
        PutOut::KeptFault => Idled {
            out: counts.out,
            fault: counts.fault + 1,
            full: counts.full,
        },
        PutOut::KeptFull => Idled {
            out: counts.out,
            fault: counts.fault,
            full: counts.full + 1,
        },
        PutOut::NotThere => counts,
        PutOut::Already => counts,
    }
}
