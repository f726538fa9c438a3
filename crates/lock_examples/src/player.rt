//! Passes on their way to threads.
ghost use Rattle.std.specs.Prelude.{◌≡◌, ℕ, Some, slice_get};
ghost use Rattle.lock_examples.specs.Toy.{IsReadyPass};

use crate::opening::first_pass;
use crate::toy::Toy;
use board_lock::{Pass, Shared};
use mpm_base::NoMemory;
use std::alloc::Global;

/// A pass on its way to a thread.
#[derive(Drop)]
pub struct Player<'a> {
    pub shared: &'a Shared<Box<Toy>>,
    pub pass: Pass<Box<Toy>>,
    ghost own: { pass.seat.table_id ≡ shared.now.table.shared.table_id },
    ghost ready: { IsReadyPass pass.seat.me },
}

/// Players for so many of the first passes.
pub fn players<'a>(
    alloc: Global,
    shared: &'a Shared<Box<Toy>>,
    passes: &mut Vec<Pass<Box<Toy>>>,
    count: u32,
) -> Result<Vec<Player<'a>>, NoMemory>
    requires own { (p : ℕ) (pass : _)
        → slice_get passes.old.items p ≡ Some pass
        → pass.seat.table_id ≡ shared.now.table.shared.table_id }
    requires ready { (p : ℕ) (pass : _)
        → slice_get passes.old.items p ≡ Some pass
        → IsReadyPass pass.seat.me }
    ensures own { (p : ℕ) (pass : _)
        → slice_get passes.new.items p ≡ Some pass
        → pass.seat.table_id ≡ shared.now.table.shared.table_id }
    ensures ready { (p : ℕ) (pass : _)
        → slice_get passes.new.items p ≡ Some pass
        → IsReadyPass pass.seat.me }
{
    let mut made = Vec::new(alloc);
    for _ in 0..count {
        if let Some(pass) = first_pass(shared, passes) {
            made.push(Player { shared, pass })?;
        }
    }
    Ok(made)
}
