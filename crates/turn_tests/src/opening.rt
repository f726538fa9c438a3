//! A lock with a board, and its passes.
ghost use Rattle.std.specs.Prelude.{◌≡◌, ◌≢◌, ◌≤◌, ℕ, IfOk, IfSome, None, Some, slice_get};
ghost use Rattle.board_lock.specs.Passes.{HasNoTurn};
ghost use Rattle.recycle_perch.specs.Resting.{IsFreeCarrier};
ghost use Rattle.board_turns.specs.Turns.{IsListener};
ghost use Rattle.turn_tests.specs.Passes.{HasCredit, IsFresh};

use crate::links::TestLink;
use board::Board;
use board_lock::{Pass, Shared};
use conn_state::Nothing;
use mpm_base::{NoMemory, Shape};
use std::alloc::Global;

/// A board of the links of a test.
pub type TestBoard = Board<TestLink, Nothing>;

/// How many connections it has at once.
pub const SLOTS: u32 = 64;

/// How many children it has, of which one runs.
pub const CHILDREN: u32 = 32;

/// That one.
pub const CHILD: u32 = 0;

/// How many workers a child has, whether all have threads or not.
pub const WORKERS: u32 = 64;

/// How many carriers rest on the perch at first: one for each permit of a child, and two more.
pub const CARRIERS: u32 = WORKERS + 2;

/// One child at a time.
pub const SHAPE: Shape = Shape {
    threads: WORKERS,
    factor: 400,
    read_ms: 60_000,
    keep_ms: 5_000,
    keep: true,
    most: 100,
    target: 1,
    children: 1,
    whole_ms: 0,
};

/// A lock with a board without connections, and so many passes.
pub fn opened(
    alloc: Global,
    passes: u32,
) -> Result<(Shared<TestBoard>, Vec<Pass<TestBoard>>), NoMemory>
    requires passes { (1 ≤ passes) × (passes ≤ 4099) }
    ensures own { IfOk result
        (λ made. (p : ℕ) (pass : _)
        → slice_get made.1.items p ≡ Some pass
        → pass.seat.table_id ≡ made.0.table.shared.table_id) }
    ensures fresh { IfOk result
        (λ made. (p : ℕ) (pass : _)
        → slice_get made.1.items p ≡ Some pass
        → IsFresh pass.seat.me) }
{
    let board = Board::make(alloc, SLOTS, CHILDREN, passes, SHAPE)?;
    match Shared::make(alloc, board, passes) {
        Ok(made) => Ok(made),
        Err((fault, _)) => Err(fault),
    }
}

/// The last of the passes.
pub fn last_of(
    shared: &Shared<TestBoard>,
    passes: &mut Vec<Pass<TestBoard>>,
) -> Option<Pass<TestBoard>>
    requires own { (p : ℕ) (pass : _)
        → slice_get passes.old.items p ≡ Some pass
        → pass.seat.table_id ≡ shared.now.table.shared.table_id }
    requires fresh { (p : ℕ) (pass : _)
        → slice_get passes.old.items p ≡ Some pass
        → IsFresh pass.seat.me }
    ensures own { (p : ℕ) (pass : _)
        → slice_get passes.new.items p ≡ Some pass
        → pass.seat.table_id ≡ shared.now.table.shared.table_id }
    ensures fresh { (p : ℕ) (pass : _)
        → slice_get passes.new.items p ≡ Some pass
        → IsFresh pass.seat.me }
    ensures last { IfSome result (λ pass. pass.seat.table_id ≡ shared.now.table.shared.table_id) }
    ensures listener { IfSome result
        (λ pass. pass.seat.me.0.who.number ≡ 0 → IsListener pass.seat.me) }
    ensures free { IfSome result (λ pass. HasNoTurn pass.seat.me) }
    ensures none { IfSome result (λ pass. pass.seat.me.0.row ≡ None) }
    ensures credit { IfSome result
        (λ pass. pass.seat.me.0.who.number ≡ 0 → HasCredit 0 pass.seat.me.0.credits) }
    ensures carrier { IfSome result
        (λ pass. pass.seat.me.0.who.number ≢ 0 → IsFreeCarrier pass.seat.me) }
{
    passes.pop()
}
