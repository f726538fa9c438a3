//! What a clause of the queue says of a seat that is alone.
ghost use Rattle.std.specs.Prelude.{◌≡◌, ◌+◌, ℕ, true, length};
ghost use Rattle.fd_queue.specs.declared.seat.SeatView.{SeatView};
ghost use Rattle.fd_queue.specs.Seats.{WasHolding};

/// Where a seat is alone, so many items stood in the queue as it put and did not take.
pub fn lone_seats_count_exactly<T>()
    ensures { (n : ℕ) (v : SeatView T)
        → v.alone ≡ true
        → WasHolding n v
        → n + length v.taken ≡ length v.put }
{}
