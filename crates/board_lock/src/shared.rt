//! The lock: the turn is taken and given back.
//! Why it is so stands in docs/DECISIONS.md: 58, What the slot holds, and when; 66, How a thread waits for the turn.
ghost use Rattle.std.specs.Prelude.{◌≡◌, None, [], ◌∷◌, List, MatchOption};
ghost use Rattle.board_lock.specs.Passes.{GaveBack, HasNoTurn, TookTurn};
ghost use Rattle.conn_machine.specs.declared.event.Entry.{Entry};
ghost use Rattle.table_rule.specs.Ledgers.{MayGiveBack};
ghost use Rattle.table_rule.specs.Views.{IsFound};

use crate::pass::Pass;
use atomic_table::Table;
use conn_machine::Kept;
use std::alloc::Global;
use std::snapshot::Snapshot;
use std::sync::Wait;
use std::sync::atomic::{AtomicU64, Ordering};
use std::thread;
use table_rule::{GiveStep, TakeStep, Tie, View, laws};

/// How often the turn is tried for before the thread lets another one go first.
const TRIES: u32 = 30;

/// How often the thread lets another one go first before it sleeps.
const YIELDS: u32 = 3;

/// A sleep looks at the lower half of a word alone, which is below this.
const HALF_WORD: u64 = 4_294_967_296;

/// The value, out of the lock. It has to be given back.
pub struct Turn<K: Kept> {
    pub kept: K,
}

/// A kept value that passes share. Each turn moves it out of its slot and back, so a large one is kept in a `Box`. The table is
/// public for the crates of the idle words and of the perch alone.
#[derive(Drop)]
pub struct Shared<K: Kept> {
    pub table: Table<Option<K>, View, Snapshot<K>, Tie, Global>,
    /// How many threads sleep, or are about to, until a turn is given back.
    sleepers: AtomicU64,
    ghost words: { table.shared.table_id.words ≡ 34 },
    ghost slots: { table.shared.table_id.slots ≡ 1 },
}

impl<K: Kept> Shared<K> {
    /// The lock of a table.
    pub(crate) fn of(table: Table<Option<K>, View, Snapshot<K>, Tie, Global>) -> Shared<K>
        requires words { table.shared.table_id.words ≡ 34 }
        requires slots { table.shared.table_id.slots ≡ 1 }
        ensures { result.table ≡ table }
    {
        Shared {
            table,
            sleepers: AtomicU64::new(0),
        }
    }

    /// Takes the turn, where it is free at this moment.
    fn try_turn(&self, pass: &mut Pass<K>) -> Option<Turn<K>>
        requires own { pass.old.seat.table_id ≡ self.now.table.shared.table_id }
        requires free { HasNoTurn pass.old.seat.me }
        ensures own { pass.new.seat.table_id ≡ pass.old.seat.table_id }
        ensures turn { MatchOption result (pass.new.seat.me ≡ pass.old.seat.me)
            (λ turn. TookTurn pass.old.seat.me pass.new.seat.me (K.ledger turn.kept)) }
    {
        let shared = &self.table.shared;
        let found = shared.peek(0);
        if found % 2 == 1 {
            return None;
        }
        laws::turn_is_taken::<K>();
        if shared.compare_exchange::<TakeStep>(&mut pass.seat, 0, found, found + 1) != found {
            return None;
        }
        match shared.exchange(&mut pass.seat, 0, None) {
            Some(kept) => Some(Turn { kept }),
            None => unreachable!(),
        }
    }

    /// Takes the turn, where it is free at one of some moments.
    fn try_often(&self, pass: &mut Pass<K>) -> Option<Turn<K>>
        requires own { pass.old.seat.table_id ≡ self.now.table.shared.table_id }
        requires free { HasNoTurn pass.old.seat.me }
        ensures own { pass.new.seat.table_id ≡ pass.old.seat.table_id }
        ensures turn { MatchOption result (pass.new.seat.me ≡ pass.old.seat.me)
            (λ turn. TookTurn pass.old.seat.me pass.new.seat.me (K.ledger turn.kept)) }
    {
        for _ in 0..TRIES {
            if let Some(turn) = self.try_turn(pass) {
                return Some(turn);
            }
        }
        None
    }

    /// Takes the turn, where it is free at one of some moments, between the last of which other threads may go first.
    fn try_patiently(&self, pass: &mut Pass<K>) -> Option<Turn<K>>
        requires own { pass.old.seat.table_id ≡ self.now.table.shared.table_id }
        requires free { HasNoTurn pass.old.seat.me }
        ensures own { pass.new.seat.table_id ≡ pass.old.seat.table_id }
        ensures turn { MatchOption result (pass.new.seat.me ≡ pass.old.seat.me)
            (λ turn. TookTurn pass.old.seat.me pass.new.seat.me (K.ledger turn.kept)) }
    {
        for _ in 0..YIELDS {
            if let Some(turn) = self.try_often(pass) {
                return Some(turn);
            }
            thread::yield_now();
        }
        None
    }

    /// Sleeps while a pass has the turn, until one gives it back. May also return for no reason.
    fn sleep<R: Wait>(&self, rt: &R) {
        let shared = &self.table.shared;
        let _ = self.sleepers.fetch_add(1, Ordering::SeqCst);
        let found = shared.peek(0);
        if found % 2 != 0 {
            shared.park(rt, 0, (found % HALF_WORD) as u32);
        }
        let _ = self.sleepers.fetch_sub(1, Ordering::SeqCst);
    }

    /// Takes the turn. Waits while another pass has it.
    pub fn turn<R: Wait>(&self, rt: &R, pass: &mut Pass<K>) -> Turn<K>
        requires own { pass.old.seat.table_id ≡ self.now.table.shared.table_id }
        requires free { HasNoTurn pass.old.seat.me }
        ensures own { pass.new.seat.table_id ≡ pass.old.seat.table_id }
        ensures turn { TookTurn pass.old.seat.me pass.new.seat.me (K.ledger result.kept) }
    {
        for _ in rt.forever() {
            if let Some(turn) = self.try_patiently(pass) {
                return turn;
            }
            self.sleep(rt);
        }
        unreachable!()
    }

    /// Gives the turn back. Takes no memory, and does not wait.
    pub fn done(&self, pass: &mut Pass<K>, turn: Turn<K>)
        requires own { pass.old.seat.table_id ≡ self.now.table.shared.table_id }
        requires hand { pass.old.seat.me.1 ≡ (0, None) ∷ [] }
        requires left { MayGiveBack pass.old.seat.me.0 (K.ledger turn.kept) }
        ensures own { pass.new.seat.table_id ≡ pass.old.seat.table_id }
        ensures given { GaveBack pass.old.seat.me pass.new.seat.me (K.ledger turn.kept) }
    {
        let shared = &self.table.shared;
        let Turn { kept } = turn;
        let length = kept.length();
        let None = shared.exchange(&mut pass.seat, 0, Some(kept)) else {
            unreachable!()
        };
        laws::turn_is_given_back::<K>();
        shared.store::<GiveStep>(&mut pass.seat, 0, 2 * length);
        if self.sleepers.load(Ordering::SeqCst) != 0 {
            shared.wake_one(0);
        }
    }

    /// Takes the turn for good, and hands the value out. Waits while another pass has it.
    pub fn close<R: Wait>(&self, rt: &R, mut pass: Pass<K>) -> K
        requires own { pass.seat.table_id ≡ self.now.table.shared.table_id }
        requires free { HasNoTurn pass.seat.me }
        ensures { (history : List Entry) × IsFound pass.seat.me.0 (K.ledger result) history }
    {
        let Turn { kept } = self.turn(rt, &mut pass);
        kept
    }
}
