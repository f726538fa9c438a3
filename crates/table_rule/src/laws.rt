//! Each kind of step keeps the rule, and tells what `specs/Steps.antt` says of it. Each law is the contract of a function
//! that does nothing. That a value is taken out of its slot, or put in, is part of the take and of the give of the turn.
ghost use Rattle.std.specs.Prelude.{◌≡◌, ◌≢◌, ◌<◌, ◌≤◌, ◌+◌, ◌-◌, ◌*◌, ◌%◌, ◌^◌, ◌==◌, ℕ, true, false, List, [], ◌∷◌, length, slice_index, Option, Some, None, slice_get};
ghost use mathlib.Core.Option.{none, some};
ghost use lib.ListN.{get_elem?};
ghost use prog.Atomic.{either};
ghost use Rattle.atomic_table.specs.Table.{Allows, Me, Splits, opening, step};
ghost use Rattle.atomic_table.specs.Table as table;
ghost use Rattle.mpm_base.specs.declared.conn.ConnName.{ConnName};
ghost use Rattle.conn_machine.specs.declared.row.Row.{Row};
ghost use Rattle.conn_machine.specs.declared.state.State.{State};
ghost use Rattle.conn_machine.specs.Rows.{carried_count, is_with_a_pass, live_row};
ghost use Rattle.conn_machine.specs.Table.{is_allowed};
ghost use Rattle.conn_machine.specs.declared.event.Event.TheVariants as event;
ghost use Rattle.conn_machine.specs.declared.kept.Ledger.{Ledger};
ghost use Rattle.conn_machine.specs.declared.event.Entry.{Entry};
ghost use Rattle.conn_machine.specs.Folds.{opening_record};
ghost use Rattle.conn_machine.specs.Runs.{AreEntriesOf, after, row_from, row_of};
ghost use Rattle.table_rule.specs.declared.view.LastLeft.{LastLeft};
ghost use Rattle.table_rule.specs.declared.view.Origin.{Origin};
ghost use Rattle.table_rule.specs.declared.view.View.{View};
ghost use Rattle.table_rule.specs.Histories.{threads_of};
ghost use Rattle.table_rule.specs.IdleWords.{bias, permits, sum_of};
ghost use Rattle.table_rule.specs.Ledgers.{IsSplit, MayGiveBack};
ghost use Rattle.table_rule.specs.Steps.{AddsCredit, DrawsNext, GivesBack, LiesDown, LooksAtIdle, Releases, TakesTurn, TriesForPermit, DropsCredit, Undoes, WakesUp};
ghost use Rattle.table_rule.specs.Tie.{AreFirstWords, IsNew, IsTied, origin_of};
ghost use Rattle.table_rule.specs.Views.{IsAwake, IsIdle, first_view, new_view, parted_view, resting_view};

use conn_machine::Kept;
use conn_machine::laws::{
    connections_stay_while_others_go_on, each_pass_has_its_own_connection, events_keep_states_sound,
};
use conn_machine::laws_between_turns::started_children_have_nobodys_connection;
use conn_machine::laws_of_runs::{
    folds_are_one_fold, made_histories_are_runs, passes_add_entries, records_go_on_by_folds,
    records_open_with_nothing,
};

/// The rule holds of a new table.
pub fn table_opens<K: Kept>()
    ensures { (words : List ℕ) (kept : K)
        → IsNew (K.ledger kept)
        → AreFirstWords words
        → IsTied K.ledger (K.ledger kept)
        (opening words (Some kept ∷ []) (first_view (origin_of (K.ledger kept)) 1)) }
{
    folds_are_one_fold();
}

/// The turn is taken.
pub fn turn_is_taken<K: Kept>()
    ensures { (o : Ledger) (slots id n : ℕ) (me : Me (Option K) View)
        → me.1 ≡ []
        → IsAwake me.0
        → (n % 2 ≡ 1 → ⊥)
        → Allows (IsTied K.ledger o) slots id me 0 (λ x. either (x == n) (n + 1) x)
        (TakesTurn K.ledger (step slots 0 n (n + 1) none) me) }
{
    connections_stay_while_others_go_on();
    each_pass_has_its_own_connection();
    records_open_with_nothing();
}

/// The turn is given back.
pub fn turn_is_given_back<K: Kept>()
    ensures { (o : Ledger) (slots id n : ℕ) (me : Me (Option K) View) (kept : K)
        → me.1 ≡ (0, Some kept) ∷ []
        → IsAwake me.0
        → MayGiveBack me.0 (K.ledger kept)
        → n ≡ 2 * ((K.ledger kept).folded.entries + length (K.ledger kept).history)
        → Allows (IsTied K.ledger o) slots id me 0 (λ _. n)
        (λ _. GivesBack K.ledger (step slots 0 n 0 none) me n) }
{
    connections_stay_while_others_go_on();
    each_pass_has_its_own_connection();
    events_keep_states_sound();
    folds_are_one_fold();
    made_histories_are_runs();
    passes_add_entries();
    records_open_with_nothing();
}

/// Pass 0 draws the next number.
pub fn number_is_drawn<K: Kept>()
    ensures { (o : Ledger) (slots id : ℕ) (me : Me (Option K) View)
        → IsAwake me.0
        → me.0.who.number ≡ 0
        → me.0.draws.spare ≡ false
        → me.0.draws.next < me.0.origin.passes
        → Allows (IsTied K.ledger o) slots id me 1 (λ n. (n + 1) % 2 ^ 64)
        (DrawsNext (step slots 1 1 0 none) me) }
{}

/// A pass is made of the number that pass 0 drew last.
pub fn pass_is_made<K: Kept>()
    ensures { (o : Ledger) (id : ℕ) (v : View)
        → IsAwake v
        → v.who.number ≡ 0
        → v.draws.spare ≡ true
        → Splits (IsTied K.ledger o) id v (parted_view v) (new_view v) }
{}

/// A pass other than pass 0 that has nothing lies down.
pub fn pass_lies_down<K: Kept>()
    ensures { (o : Ledger) (slots id : ℕ) (me : Me (Option K) View)
        → IsAwake me.0
        → IsIdle me.0
        → me.0.who.number ≢ 0
        → Allows (IsTied K.ledger o) slots id me 0 (λ n. n) (LiesDown (step slots 0 0 0 none) me) }
{}

/// A pass wakes up.
pub fn pass_wakes_up<K: Kept>()
    ensures { (o : Ledger) (slots id p : ℕ) (me : Me (Option K) View)
        → me.0 ≡ resting_view p
        → p ≢ 0
        → Allows (IsTied K.ledger o) slots id me 0 (λ n. n) (WakesUp (step slots 0 0 0 none) me) }
{}

/// A pass that has nothing tries for a permit.
pub fn permit_is_tried_for<K: Kept>()
    ensures { (o : Ledger) (slots id k : ℕ) (me : Me (Option K) View)
        → k < 32
        → IsAwake me.0
        → IsIdle me.0
        → Allows (IsTied K.ledger o) slots id me (k + 2) (λ n. (n + (2 ^ 64 - 1)) % 2 ^ 64)
        (TriesForPermit (step slots (k + 2) 1 0 none) me) }
{}

/// A try is undone.
pub fn try_is_undone<K: Kept>()
    ensures { (o : Ledger) (slots id k : ℕ) (me : Me (Option K) View)
        → k < 32
        → IsAwake me.0
        → me.0.hand.trying ≡ Some k
        → Allows (IsTied K.ledger o) slots id me (k + 2) (λ n. (n + 1) % 2 ^ 64)
        (Undoes (step slots (k + 2) 1 0 none) me) }
{}

/// A permit is given back.
pub fn permit_is_released<K: Kept>()
    ensures { (o : Ledger) (slots id k : ℕ) (me : Me (Option K) View)
        → k < 32
        → IsAwake me.0
        → me.0.hand.permit ≡ Some k
        → me.0.row ≡ None
        → Allows (IsTied K.ledger o) slots id me (k + 2) (λ n. (n + 1) % 2 ^ 64)
        (Releases (step slots (k + 2) 1 0 none) me) }
{}

/// A child gets its credit: pass 0 has the turn, and the child has these workers.
pub fn child_is_credited<K: Kept>()
    ensures { (o found : Ledger) (slots id k n : ℕ) (me : Me (Option K) View)
        → k < 32
        → IsAwake me.0
        → me.0.who.number ≡ 0
        → me.0.turn ≡ Some found
        → slice_index me.0.credits k ≡ 0
        → n ≤ 64
        → n ≡ threads_of (after me.0.origin.state me.0.seen) k
        → Allows (IsTied K.ledger o) slots id me (k + 2) (λ c. (c + n) % 2 ^ 64)
        (AddsCredit (step slots (k + 2) n 0 none) me) }
{}

/// A child loses its credit.
pub fn child_is_uncredited<K: Kept>()
    ensures { (o : Ledger) (slots id k n : ℕ) (me : Me (Option K) View)
        → k < 32
        → IsAwake me.0
        → me.0.who.number ≡ 0
        → slice_index me.0.credits k ≡ n
        → Allows (IsTied K.ledger o) slots id me (k + 2) (λ x. either (x == bias + n) bias x)
        (DropsCredit (step slots (k + 2) (bias + n) bias none) me) }
{}

/// An idle word is looked at.
pub fn idle_word_is_looked_at<K: Kept>()
    ensures { (o : Ledger) (slots id k : ℕ) (me : Me (Option K) View)
        → k < 32
        → IsAwake me.0
        → Allows (IsTied K.ledger o) slots id me (k + 2) (λ n. n)
        (LooksAtIdle (step slots (k + 2) 0 0 none) me) }
{
    each_pass_has_its_own_connection();
    records_open_with_nothing();
}

/// Where the rule holds, each connection that somebody holds or has stands in a pass's view; a child's workers carry no more
/// connections than it has permits out; and a pass with a permit of it and no connection leaves one of them free.
pub fn views_tell_of_connections<K: Kept>()
    ensures stands { (o : Ledger) (s : table.State (Option K) View) (tied : IsTied K.ledger o s)
        (slot : ℕ) (r : Row)
        → slice_get (after o.base tied.history).rows slot ≡ Some r
        → is_with_a_pass r.place ≡ true
        → (id : ℕ) × (v : View) × (name : ConnName) × (get_elem? s.views id ≡ some v)
        × (v.row ≡ Some name) × (name.slot ≡ slot) }
    ensures carried { (o : Ledger) (s : table.State (Option K) View) (tied : IsTied K.ledger o s)
        (k : ℕ)
        → carried_count (after o.base tied.history).rows k ≤ sum_of (permits k) s.views }
    ensures room { (o : Ledger) (s : table.State (Option K) View) (tied : IsTied K.ledger o s)
        (id k : ℕ) (v : View)
        → get_elem? s.views id ≡ some v
        → v.row ≡ None
        → v.hand.permit ≡ Some k
        → carried_count (after o.base tied.history).rows k
        < threads_of (after o.base tied.history) k }
{
    each_pass_has_its_own_connection();
    records_open_with_nothing();
}

/// Where the rule holds no more permits of a child are out than it has workers, also while nobody has the turn.
pub fn permits_are_of_workers<K: Kept>()
    ensures { (o : Ledger) (s : table.State (Option K) View) (tied : IsTied K.ledger o s) (k : ℕ)
        → k < 32
        → sum_of (permits k) s.views ≤ threads_of (after o.base tied.history) k }
{}

/// Where the rule holds and a child may be started, no pass has a permit of it, or a connection of the child that had the number before.
pub fn started_children_have_no_permits<K: Kept>()
    ensures permits { (o : Ledger) (s : table.State (Option K) View) (tied : IsTied K.ledger o s)
        (id k : ℕ) (v : View)
        → k < 32
        → is_allowed (after o.base tied.history) (event.StartChild k) ≡ true
        → get_elem? s.views id ≡ some v
        → v.hand.permit ≢ Some k }
    ensures rows { (o : Ledger) (s : table.State (Option K) View) (tied : IsTied K.ledger o s)
        (id k : ℕ) (v : View) (name : ConnName)
        → is_allowed (after o.base tied.history) (event.StartChild k) ≡ true
        → get_elem? s.views id ≡ some v
        → v.row ≡ Some name
        → (r : Row) × (live_row (after o.base tied.history).rows name ≡ Some r) × (r.child ≢ k) }
{
    each_pass_has_its_own_connection();
    events_keep_states_sound();
    made_histories_are_runs();
    records_open_with_nothing();
    started_children_have_nobodys_connection();
}

/// What a value keeps stands for the whole history: behind its base and its record each pass has the same connection, and what
/// it may add there it may add to the whole.
pub fn values_stand_for_whole_histories()
    ensures row { (origin : Origin) (left : LastLeft) (l : Ledger) (whole : List Entry) (p : ℕ)
        → IsSplit origin left l whole
        → p < origin.passes
        → row_from l.folded p l.history ≡ row_of p whole }
    ensures entries { (origin : Origin) (left : LastLeft) (l : Ledger) (whole added : List Entry)
        (p : ℕ)
        → IsSplit origin left l whole
        → p < origin.passes
        → AreEntriesOf p l.base l.folded l.history added
        → AreEntriesOf p origin.state (opening_record origin.passes) whole added }
{
    records_go_on_by_folds();
}
