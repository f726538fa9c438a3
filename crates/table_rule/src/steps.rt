//! The kinds of step, and the rule that they keep.
ghost use Rattle.table_rule.specs.Steps.{AddsCredit, DrawsNext, GivesBack, LiesDown, LooksAtIdle, Releases, TakesTurn, TriesForPermit, DropsCredit, Undoes, WakesUp};
ghost use Rattle.table_rule.specs.Tie.{IsTied, origin_of};
ghost use Rattle.table_rule.specs.Views.{first_view, new_view, parted_view};

use crate::view::View;
use atomic_table::{Play, Split, TableRule};
use conn_machine::Kept;
use std::snapshot::Snapshot;

/// The rule. Its key is the value as it was when the table was made.
pub struct Tie;

impl<K: Kept> TableRule<Option<K>, View, Snapshot<K>> for Tie {
    ghost holds = { λ key s. IsTied K.ledger (K.ledger key.value) s };

    ghost first = { λ key. first_view (origin_of (K.ledger key.value)) 1 };
}

/// The turn is taken: a compare-exchange on word 0, from an even number to the next.
pub struct TakeStep;

impl<K: Kept> Play<Option<K>, View> for TakeStep {
    ghost then = { TakesTurn K.ledger };
}

/// The turn is given back: a store on word 0, of twice the new length.
pub struct GiveStep;

impl<K: Kept> Play<Option<K>, View> for GiveStep {
    ghost then = { GivesBack K.ledger };
}

/// A pass number is drawn: 1 is added to word 1.
pub struct DrawStep;

impl<K: Kept> Play<Option<K>, View> for DrawStep {
    ghost then = { DrawsNext };
}

/// A pass lies down: a load of word 0.
pub struct RestStep;

impl<K: Kept> Play<Option<K>, View> for RestStep {
    ghost then = { LiesDown };
}

/// A pass wakes up: a load of word 0.
pub struct WakeStep;

impl<K: Kept> Play<Option<K>, View> for WakeStep {
    ghost then = { WakesUp };
}

/// A permit is tried for: 1 is taken off an idle word.
pub struct TryStep;

impl<K: Kept> Play<Option<K>, View> for TryStep {
    ghost then = { TriesForPermit };
}

/// A try is undone: 1 is added to an idle word.
pub struct UndoStep;

impl<K: Kept> Play<Option<K>, View> for UndoStep {
    ghost then = { Undoes };
}

/// A permit is given back: 1 is added to an idle word.
pub struct ReleaseStep;

impl<K: Kept> Play<Option<K>, View> for ReleaseStep {
    ghost then = { Releases };
}

/// A child gets its credit: its workers are added to its idle word.
pub struct CreditStep;

impl<K: Kept> Play<Option<K>, View> for CreditStep {
    ghost then = { AddsCredit };
}

/// A child loses its credit: a compare-exchange on its idle word.
pub struct UncreditStep;

impl<K: Kept> Play<Option<K>, View> for UncreditStep {
    ghost then = { DropsCredit };
}

/// An idle word is looked at: a load.
pub struct IdleStep;

impl<K: Kept> Play<Option<K>, View> for IdleStep {
    ghost then = { LooksAtIdle };
}

/// The last number that pass 0 drew goes to a new pass.
pub struct NewPass;

impl Split<View> for NewPass {
    ghost left = { parted_view };

    ghost right = { new_view };
}
