//! A lock is made, with its passes.
//! Why it is so stands in docs/DECISIONS.md: 57, A number is drawn before its pass is made.
ghost use Rattle.std.specs.Prelude.{◌≡◌, ◌<◌, ◌≤◌, ◌+◌, ℕ, Some, None, [], ◌∷◌, IfOk, IfErr, slice_get, vec_len, vec_capacity};
ghost use Rattle.board_lock.specs.Passes.{fresh_view};
ghost use Rattle.table_rule.specs.Tie.{IsNew, origin_of};
ghost use Rattle.table_rule.specs.Views.{first_view, free_view};
ghost use Rattle.table_rule.specs.declared.view.Origin.{Origin};

use crate::pass::Pass;
use crate::shared::Shared;
use atomic_table::{Refused, Table};
use conn_machine::Kept;
use mpm_base::NoMemory;
use std::alloc::Global;
use std::snapshot::Snapshot;
use table_rule::{DrawStep, NewPass, first_words, laws};

impl<K: Kept> Shared<K> {
    /// The lock of a new value, for as many passes as it is for, and the passes, by their numbers. Where memory lacks the value
    /// comes back.
    pub fn make(
        alloc: Global,
        kept: K,
        passes: u32,
    ) -> Result<(Shared<K>, Vec<Pass<K>>), (NoMemory, K)>
        requires new { IsNew (K.ledger kept) }
        requires passes { (K.ledger kept).passes ≡ passes }
        ensures count { IfOk result (λ made. vec_len made.1 ≡ passes) }
        ensures own { IfOk result
            (λ made. (p : ℕ) (pass : _)
            → slice_get made.1.items p ≡ Some pass
            → pass.seat.table_id ≡ made.0.table.shared.table_id) }
        ensures fresh { IfOk result
            (λ made. (p : ℕ) (pass : _)
            → slice_get made.1.items p ≡ Some pass
            → pass.seat.me ≡ (fresh_view (origin_of (K.ledger kept)) p, [])) }
        ensures err { IfErr result (λ refused. refused.1 ≡ kept) }
    {
        let Ok(mut all) = Vec::with_capacity(alloc, passes as usize) else {
            return Err((NoMemory, kept));
        };
        let Ok(mut slots) = Vec::with_capacity(alloc, 1) else {
            return Err((NoMemory, kept));
        };
        let key = Snapshot::of(&kept);
        slots.push_reserved(Some(kept));
        laws::table_opens::<K>();
        let (table, seat) = match Table::new(alloc, &first_words(), slots, &key) {
            Ok(made) => made,
            Err(Refused { mut slots }) => match slots.pop() {
                Some(Some(kept)) => return Err((NoMemory, kept)),
                _ => unreachable!(),
            },
        };
        let shared = Shared::of(table);
        let mut first = Pass::of(seat, 0);
        shared.fill(&mut first, &mut all, passes);
        match all.insert(0, first) {
            Ok(()) => Ok((shared, all)),
            Err(_) => unreachable!(),
        }
    }

    /// Makes the passes but for pass 0.
    fn fill(&self, first: &mut Pass<K>, all: &mut Vec<Pass<K>>, passes: u32)
        requires own { first.old.seat.table_id ≡ self.now.table.shared.table_id }
        requires first { let origin = origin_of (K.ledger self.now.table.shared.key.value) in
            first.old.seat.me ≡ (first_view origin 1, []) }
        requires passes { (1 ≤ passes)
            × ((K.ledger self.now.table.shared.key.value).passes ≡ passes) }
        requires room { (vec_len all.old ≡ 0) × (passes ≤ vec_capacity all.old) }
        ensures own { first.new.seat.table_id ≡ first.old.seat.table_id }
        ensures first { let origin = origin_of (K.ledger self.now.table.shared.key.value) in
            first.new.seat.me ≡ (first_view origin passes, []) }
        ensures count { vec_len all.new + 1 ≡ passes }
        ensures room { passes ≤ vec_capacity all.new }
        ensures all { let origin = origin_of (K.ledger self.now.table.shared.key.value) in
            (p : ℕ) (pass : _)
            → slice_get all.new.items p ≡ Some pass
            → (pass.seat.table_id ≡ self.now.table.shared.table_id)
            × (pass.seat.me ≡ (free_view origin (p + 1) [], [])) }
    {
        for number in 1..passes {
            let pass = self.next_pass(first, number);
            all.push_reserved(pass);
        }
    }

    /// Makes the next pass, of this number.
    fn next_pass(&self, first: &mut Pass<K>, number: u32) -> Pass<K>
        requires own { first.old.seat.table_id ≡ self.now.table.shared.table_id }
        requires first { let origin = origin_of (K.ledger self.now.table.shared.key.value) in
            first.old.seat.me ≡ (first_view origin number, []) }
        requires number { (1 ≤ number)
            × (number < (K.ledger self.now.table.shared.key.value).passes) }
        ensures own { first.new.seat.table_id ≡ first.old.seat.table_id }
        ensures first { let origin = origin_of (K.ledger self.now.table.shared.key.value) in
            first.new.seat.me ≡ (first_view origin (number + 1), []) }
        ensures pass { let origin = origin_of (K.ledger self.now.table.shared.key.value) in
            (result.seat.table_id ≡ first.old.seat.table_id)
            × (result.seat.me ≡ (free_view origin number [], [])) }
    {
        let shared = &self.table.shared;
        laws::number_is_drawn::<K>();
        let _ = shared.fetch_add::<DrawStep>(&mut first.seat, 1, 1);
        laws::pass_is_made::<K>();
        let seat = shared.split_seat::<NewPass>(&mut first.seat);
        Pass::of(seat, number)
    }
}
