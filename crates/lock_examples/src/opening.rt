//! A lock with the small value, and its passes.
ghost use Rattle.std.specs.Prelude.{◌≡◌, ◌≤◌, ℕ, IfOk, IfSome, Some, slice_get};
ghost use Rattle.lock_examples.specs.Toy.{IsReadyPass};
ghost use Rattle.table_rule.specs.Tie.{IsNew};

use crate::toy::Toy;
use board_lock::{Pass, Shared};
use conn_machine::Kept;
use mpm_base::NoMemory;
use std::alloc::Global;

/// A lock with the value in a box, for so many passes.
pub fn opened(
    alloc: Global,
    passes: u32,
) -> Result<(Shared<Box<Toy>>, Vec<Pass<Box<Toy>>>), NoMemory>
    requires passes { (1 ≤ passes) × (passes ≤ 4099) }
    ensures own { IfOk result
        (λ made. (p : ℕ) (pass : _)
        → slice_get made.1.items p ≡ Some pass
        → pass.seat.table_id ≡ made.0.table.shared.table_id) }
    ensures ready { IfOk result
        (λ made. (p : ℕ) (pass : _)
        → slice_get made.1.items p ≡ Some pass
        → IsReadyPass pass.seat.me) }
{
    let toy = Box::new(alloc, Toy::new(alloc, passes))?;
    opened_with(alloc, toy, passes)
}

/// A lock with the value itself, for so many passes.
pub fn opened_plain(alloc: Global, passes: u32) -> Result<(Shared<Toy>, Vec<Pass<Toy>>), NoMemory>
    requires passes { (1 ≤ passes) × (passes ≤ 4099) }
    ensures own { IfOk result
        (λ made. (p : ℕ) (pass : _)
        → slice_get made.1.items p ≡ Some pass
        → pass.seat.table_id ≡ made.0.table.shared.table_id) }
    ensures ready { IfOk result
        (λ made. (p : ℕ) (pass : _)
        → slice_get made.1.items p ≡ Some pass
        → IsReadyPass pass.seat.me) }
{
    opened_with(alloc, Toy::new(alloc, passes), passes)
}

/// A lock with a new value, for so many passes.
fn opened_with<K: Kept>(
    alloc: Global,
    kept: K,
    passes: u32,
) -> Result<(Shared<K>, Vec<Pass<K>>), NoMemory>
    requires new { IsNew (K.ledger kept) }
    requires passes { (K.ledger kept).passes ≡ passes }
    ensures own { IfOk result
        (λ made. (p : ℕ) (pass : _)
        → slice_get made.1.items p ≡ Some pass
        → pass.seat.table_id ≡ made.0.table.shared.table_id) }
    ensures ready { IfOk result
        (λ made. (p : ℕ) (pass : _)
        → slice_get made.1.items p ≡ Some pass
        → IsReadyPass pass.seat.me) }
{
    match Shared::make(alloc, kept, passes) {
        Ok(made) => Ok(made),
        Err((fault, _)) => Err(fault),
    }
}

/// The first of the passes.
pub fn first_pass<K: Kept>(shared: &Shared<K>, passes: &mut Vec<Pass<K>>) -> Option<Pass<K>>
    requires own { (p : ℕ) (pass : _)
        → slice_get passes.old.items p ≡ Some pass
        → pass.seat.table_id ≡ shared.now.table.shared.table_id }
    requires ready { (p : ℕ) (pass : _)
        → slice_get passes.old.items p ≡ Some pass
        → IsReadyPass pass.seat.me }
    ensures own { (p : ℕ) (pass : _)
        → slice_get passes.new.items p ≡ Some pass
        → pass.seat.table_id ≡ shared.now.table.shared.table_id }
    ensures ready { (p : ℕ) (pass : _)
        → slice_get passes.new.items p ≡ Some pass
        → IsReadyPass pass.seat.me }
    ensures first { IfSome result (λ pass. pass.seat.table_id ≡ shared.now.table.shared.table_id) }
    ensures first_ready { IfSome result (λ pass. IsReadyPass pass.seat.me) }
{
    if passes.is_empty() {
        return None;
    }
    Some(passes.remove(0))
}
