//! How a wait of a front ended.
//! Why it is so stands in docs/DECISIONS.md: 13, A wait that may not let time pass.
ghost use Rattle.std.specs.Prelude.{◌≡◌};
ghost use Rattle.script_front.specs.PlayedFrontInside.{passed_between};

use mpm_base::{Moment, Woke};

/// How many connections and command lines wait to be taken.
#[derive(Clone, Copy)]
pub(crate) struct WaitingCounts {
    pub(crate) arrivals: usize,
    pub(crate) lines: usize,
}

/// How a wait ended: how many connections were handed out as it began, how many command lines were read, and whether listening was
/// stopped; until when it was to last at most, whether time might pass in it, its answer, and what waited to be taken just before it let
/// time pass, where it did.
#[derive(Clone, Copy)]
pub(crate) struct WaitEnd {
    pub(crate) accepted: usize,
    pub(crate) read: usize,
    pub(crate) hushed: bool,
    pub(crate) until: Option<Moment>,
    pub(crate) quiet: bool,
    pub(crate) answer: Woke,
    pub(crate) passed: Option<WaitingCounts>,
}

/// So much waited before time passed, where the second of the moments is later than the first.
pub(crate) fn passed_between(
    from: Moment,
    to: Moment,
    counts: WaitingCounts,
) -> Option<WaitingCounts>
    ensures { result ≡ passed_between from to counts }
{
    if from < to { Some(counts) } else { None }
}
