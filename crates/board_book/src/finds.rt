//! What is found in a state: none takes memory, and each is exact.
ghost use Rattle.std.specs.Prelude.{◌≡◌, ℕ, ◌≤◌, ◌++◌, List, length, find, min};
ghost use Rattle.std.specs.List.{range_with_len, reduce};
ghost use Rattle.conn_machine.specs.Children.{is_empty};
ghost use Rattle.conn_machine.specs.Table.{child_passes};
ghost use Rattle.board_book.specs.Finds.{FindsRetirable, acceptable, ending_moments, startable, waits_for};

use conn_machine::{Going, Place, State};
use mpm_base::{ConnName, Kind, Moment};

/// The child that the next connection goes to, while the server takes connections and a slot is vacant.
pub fn can_accept(state: &State) -> Option<u32>
    requires few_rows { length state.now.rows ≤ 8192 }
    requires few_children { length state.now.children ≤ 32 }
    ensures { result ≡ acceptable state.now }
{
    if state.going.is_serving() && state.rows.has_vacant() {
        state.pick_child()
    } else {
        None
    }
}

/// The lowest child that is gone, while the server takes connections and fewer children run than should.
pub fn can_start(state: &State) -> Option<u32>
    requires few_children { length state.now.children ≤ 32 }
    ensures { result ≡ startable state.now }
{
    if state.going.is_serving() && (state.children.running() as u32) < state.shape.target {
        lowest_gone(state)
    } else {
        None
    }
}

/// The lowest child that is gone.
fn lowest_gone(state: &State) -> Option<u32>
    requires few_children { length state.now.children ≤ 32 }
    ensures { result
        ≡ find (child_passes (λ c. is_empty c.phase) state.now)
        (range_with_len 0 (length state.now.children)) }
{
    (0..state.children.len() as u32).find(|child| is_gone(state, *child))
}

/// Whether there is a child of that number, and it is gone.
fn is_gone(state: &State, child: u32) -> bool
    ensures { result ≡ child_passes (λ c. is_empty c.phase) state.now child }
{
    match state.children.find(child) {
        Some(child) => child.phase.is_empty(),
        None => false,
    }
}

/// A child that may be let go of.
#[tactic(auto, using(crate::proofs::FindLemmas::none_retirable))]
pub fn can_retire(state: &State) -> Option<u32>
    requires few_children { length state.now.children ≤ 32 }
    ensures { FindsRetirable state.now result }
{
    let (number, _) = state.children.as_slice().iter().enumerate().find(|(number, child)| {
        child.phase.is_stopping() && !state.has_live_in(*number as u32)
    })?;
    Some(number as u32)
}

/// What the connection of that name waits for, where it lives and waits.
pub fn kind(state: &State, name: ConnName) -> Option<Kind>
    ensures { result ≡ waits_for state.now name }
{
    match state.rows.live(name)?.place {
        Place::Parked(kind) => Some(kind),
        _ => None,
    }
}

/// The least of some moments, once the moment at which the server stops is one of them.
#[tactic(auto, using(crate::proofs::FindLemmas::reduce_push))]
pub fn least_with_ending(least: Option<Moment>, going: Going) -> Option<Moment>
    ensures { (moments : List ℕ)
        → least ≡ reduce min moments
        → result ≡ reduce min (moments ++ ending_moments going) }
{
    match going {
        Going::Ending(Some(until)) => Some(least.map_or(until, |other| until.min(other))),
        _ => least,
    }
}
