//! Seats of a queue on their way to threads.
ghost use Rattle.std.specs.Prelude.{◌≡◌, ℕ, IfSome, Some, slice_get};
ghost use Rattle.crossbeam_queue.specs.Passes.{IsPassOf};

use fd_queue::{FdQueue, FdSeat};

/// The last of the seats.
pub fn last_seat<T: Drop>(queue: &FdQueue<T>, seats: &mut Vec<FdSeat<T>>) -> Option<FdSeat<T>>
    requires seats { (i : ℕ) (seat : _)
        → slice_get seats.old.items i ≡ Some seat
        → IsPassOf queue.now.ring seat }
    ensures seats { (i : ℕ) (seat : _)
        → slice_get seats.new.items i ≡ Some seat
        → IsPassOf queue.now.ring seat }
    ensures last { IfSome result (λ seat. IsPassOf queue.now.ring seat) }
{
    seats.pop()
}
