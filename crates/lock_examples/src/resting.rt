//! Which of two carriers may rest, and looks at a perch on their way to threads.
ghost use Rattle.std.specs.Prelude.{◌≡◌, IfSome, IsSome};
ghost use Rattle.recycle_perch.specs.Looking.{AllAreOf, AreOf};
ghost use Rattle.recycle_perch.specs.Resting.{IsFreeCarrier};

use board_lock::Carrier;
use conn_machine::Kept;
use recycle_perch::{Looks, Perch};

/// Of two carriers the first has nothing: it is laid down, where it has a place. The second has a connection, and goes on.
pub fn rests_one<'a, K: Kept>(
    perch: &Perch<'a, K>,
    looks: &mut Looks,
    carriers: (Carrier<K>, Carrier<K>),
) -> Carrier<K>
    requires looks { AreOf perch.now.places looks.old }
    requires own { carriers.0.seat.table_id ≡ perch.now.shared.now.table.shared.table_id }
    requires other { carriers.1.seat.table_id ≡ perch.now.shared.now.table.shared.table_id }
    requires free { IsFreeCarrier carriers.0.seat.me }
    requires busy { IsSome carriers.1.seat.me.0.row }
    ensures looks { AreOf perch.now.places looks.new }
    ensures own { result.seat.table_id ≡ perch.now.shared.now.table.shared.table_id }
{
    let (free, busy) = carriers;
    let _ = perch.give(looks, free);
    busy
}

/// The last of the looks.
pub fn last_looks<'a, K: Kept>(perch: &Perch<'a, K>, all: &mut Vec<Looks>) -> Option<Looks>
    requires looks { AllAreOf perch.now.places all.old.items }
    ensures looks { AllAreOf perch.now.places all.new.items }
    ensures last { IfSome result (λ looks. AreOf perch.now.places looks) }
{
    all.pop()
}
