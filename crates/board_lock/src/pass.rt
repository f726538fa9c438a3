//! The token of a caller.
ghost use Rattle.std.specs.Prelude.{◌≡◌, false};

use atomic_table::Seat;
use table_rule::View;

/// The token of a caller. The seat is public for the crates of the idle words and of the perch alone.
#[derive(Drop)]
pub struct Pass<K> {
    pub seat: Seat<Option<K>, View>,
    number: u32,
    ghost numbered: { seat.me.0.who.number ≡ number },
    ghost up: { seat.me.0.who.resting ≡ false },
}

/// A pass that carries connections to workers.
pub type Carrier<K> = Pass<K>;

impl<K> Pass<K> {
    /// The pass of a seat.
    pub fn of(seat: Seat<Option<K>, View>, number: u32) -> Pass<K>
        requires number { seat.me.0.who.number ≡ number }
        requires up { seat.me.0.who.resting ≡ false }
        ensures { result.seat ≡ seat }
    {
        Pass { seat, number }
    }

    /// The seat of the pass.
    pub fn into_seat(self) -> Seat<Option<K>, View>
        ensures { result ≡ self.seat }
    {
        let Pass { seat, number: _ } = self;
        seat
    }
}

/// The number of the pass.
pub fn number<K>(pass: &Pass<K>) -> u32
    ensures { result ≡ pass.now.seat.me.0.who.number }
{
    pass.number
}
