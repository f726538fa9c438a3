//! The credits that the listener gave: how many workers of each child nobody but those who reserve them may use.
//! Why it is so stands in docs/DECISIONS.md: 140, Parts of the listener's round.
ghost use Rattle.std.specs.Prelude.{◌≡◌, ◌<◌, [], None, true, false, length, slice_index, slice_set};
ghost use Rattle.board_turns.specs.Books.{state_of};
ghost use Rattle.board_turns.specs.Turns.{IsListener};
ghost use Rattle.listener_parts.specs.Did.{Did, LeavesAlone};
ghost use Rattle.listener_parts.specs.Rounds.{AreCredits, NoneHasCredit};

use board::Board;
use board_lock::{Pass, Shared};
use board_turns::turns_rest_on_these;
use conn_machine::laws_between_turns::others_leave_the_rest_to_the_listener;
use conn_state::Known;
use idle_workers::uncredit;
use listener_turns::credit_child;
use mpm_base::Link;
use std::marker::Model;
use std::sync::Wait;

/// How many children there may be.
pub(crate) const CHILDREN: u32 = 32;

/// The credit of each child: of how many workers the listener gave it credit. 0 where it has none.
#[derive(Debug, Drop)]
pub struct Credits {
    numbers: [u32; 32],
}

impl Model for Credits {
    ghost use Rattle.std.specs.Prelude.{◌≡◌, List, ℕ, length};

    ghost Value = { List ℕ };

    ghost view = { λ c. c.numbers };

    ghost invariant = { λ c. length c.numbers ≡ 32 };
}

impl Credits {
    /// No child has any, as when the server opens.
    pub fn none() -> Credits
        ensures none { NoneHasCredit result }
        ensures full { length result ≡ 32 }
    {
        Credits { numbers: [0; 32] }
    }

    /// That of the child.
    pub fn of(&self, child: u32) -> u32
        requires { child < 32 }
        ensures { result ≡ slice_index self.now child }
    {
        self.numbers[child as usize]
    }

    /// The child has this one from now on.
    fn set(&mut self, child: u32, threads: u32)
        requires { child < 32 }
        ensures set { self.new ≡ slice_set self.old child threads }
        ensures full { length self.new ≡ length self.old }
    {
        self.numbers[child as usize] = threads;
    }
}

/// Each child that has none gets the credit of its workers. One that is gone has no workers.
pub fn credit_all<R: Wait, L: Link, N: Known>(
    rt: &R,
    shared: &Shared<Board<L, N>>,
    pass: &mut Pass<Board<L, N>>,
    credits: &mut Credits,
)
    requires own { pass.old.seat.table_id ≡ shared.now.table.shared.table_id }
    requires listener { IsListener pass.old.seat.me }
    requires none { pass.old.seat.me.0.row ≡ None }
    requires credits { AreCredits credits.old pass.old.seat.me.0 }
    ensures own { pass.new.seat.table_id ≡ pass.old.seat.table_id }
    ensures listener { IsListener pass.new.seat.me }
    ensures did { Did [] None pass.old.seat.me.0 pass.new.seat.me.0 }
    ensures rest { LeavesAlone (state_of pass.old.seat.me.0) (state_of pass.new.seat.me.0) }
    ensures credits { AreCredits credits.new pass.new.seat.me.0 }
{
    turns_rest_on_these();
    others_leave_the_rest_to_the_listener();
    for child in 0..CHILDREN {
        credit_one(rt, shared, pass, credits, child);
    }
}

/// The child gets the credit of its workers, where it has none.
fn credit_one<R: Wait, L: Link, N: Known>(
    rt: &R,
    shared: &Shared<Board<L, N>>,
    pass: &mut Pass<Board<L, N>>,
    credits: &mut Credits,
    child: u32,
)
    requires own { pass.old.seat.table_id ≡ shared.now.table.shared.table_id }
    requires listener { IsListener pass.old.seat.me }
    requires none { pass.old.seat.me.0.row ≡ None }
    requires credits { AreCredits credits.old pass.old.seat.me.0 }
    requires child { child < 32 }
    ensures own { pass.new.seat.table_id ≡ pass.old.seat.table_id }
    ensures listener { IsListener pass.new.seat.me }
    ensures did { Did [] None pass.old.seat.me.0 pass.new.seat.me.0 }
    ensures rest { LeavesAlone (state_of pass.old.seat.me.0) (state_of pass.new.seat.me.0) }
    ensures credits { AreCredits credits.new pass.new.seat.me.0 }
{
    turns_rest_on_these();
    others_leave_the_rest_to_the_listener();
    if credits.of(child) != 0 {
        return;
    }
    let threads = credit_child(rt, shared, pass, child);
    credits.set(child, threads);
}

/// A child that was started gets the credit of its workers, where it has none.
pub(crate) fn credit_started<R: Wait, L: Link, N: Known>(
    rt: &R,
    shared: &Shared<Board<L, N>>,
    pass: &mut Pass<Board<L, N>>,
    credits: &mut Credits,
    child: u32,
)
    requires own { pass.old.seat.table_id ≡ shared.now.table.shared.table_id }
    requires listener { IsListener pass.old.seat.me }
    requires none { pass.old.seat.me.0.row ≡ None }
    requires credits { AreCredits credits.old pass.old.seat.me.0 }
    ensures own { pass.new.seat.table_id ≡ pass.old.seat.table_id }
    ensures listener { IsListener pass.new.seat.me }
    ensures did { Did [] None pass.old.seat.me.0 pass.new.seat.me.0 }
    ensures rest { LeavesAlone (state_of pass.old.seat.me.0) (state_of pass.new.seat.me.0) }
    ensures credits { AreCredits credits.new pass.new.seat.me.0 }
{
    if child < CHILDREN {
        credit_one(rt, shared, pass, credits, child);
    }
}

/// The credit of the child is taken back, where nobody has a permit of it or tries for one: whether it has none now. It takes no turn.
pub fn take_credit_back<L: Link, N: Known>(
    shared: &Shared<Board<L, N>>,
    pass: &mut Pass<Board<L, N>>,
    credits: &mut Credits,
    child: u32,
) -> bool
    requires own { pass.old.seat.table_id ≡ shared.now.table.shared.table_id }
    requires listener { IsListener pass.old.seat.me }
    requires none { pass.old.seat.me.0.row ≡ None }
    requires credits { AreCredits credits.old pass.old.seat.me.0 }
    requires child { child < 32 }
    ensures own { pass.new.seat.table_id ≡ pass.old.seat.table_id }
    ensures listener { IsListener pass.new.seat.me }
    ensures did { Did [] None pass.old.seat.me.0 pass.new.seat.me.0 }
    ensures seen { pass.new.seat.me.0.seen ≡ pass.old.seat.me.0.seen }
    ensures credits { AreCredits credits.new pass.new.seat.me.0 }
    ensures back { result ≡ true → credits.new ≡ slice_set credits.old child 0 }
    ensures stays { result ≡ false → credits.new ≡ credits.old }
{
    let threads = credits.of(child);
    if uncredit(shared, pass, child, threads) {
        credits.set(child, 0);
        return true;
    }
    false
}

/// The credit of each child is taken back: whether none has one now. It stops at the first whose permit is out.
pub fn take_all_credits_back<L: Link, N: Known>(
    shared: &Shared<Board<L, N>>,
    pass: &mut Pass<Board<L, N>>,
    credits: &mut Credits,
) -> bool
    requires own { pass.old.seat.table_id ≡ shared.now.table.shared.table_id }
    requires listener { IsListener pass.old.seat.me }
    requires none { pass.old.seat.me.0.row ≡ None }
    requires credits { AreCredits credits.old pass.old.seat.me.0 }
    ensures own { pass.new.seat.table_id ≡ pass.old.seat.table_id }
    ensures listener { IsListener pass.new.seat.me }
    ensures did { Did [] None pass.old.seat.me.0 pass.new.seat.me.0 }
    ensures seen { pass.new.seat.me.0.seen ≡ pass.old.seat.me.0.seen }
    ensures credits { AreCredits credits.new pass.new.seat.me.0 }
    ensures none { result ≡ true → NoneHasCredit credits.new }
{
    for child in 0..CHILDREN {
        if !take_credit_back(shared, pass, credits, child) {
            return false;
        }
    }
    true
}
