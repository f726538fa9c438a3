//! Rings of places: each place stands between the one before it and the one behind it.
ghost use Rattle.std.specs.Prelude.{◌≡◌, ◌<◌, length, slice_set, IfOk};
ghost use Rattle.timeout_queues.specs.RingsInside.{place_at, IsAlone};

use mpm_base::NoMemory;
use std::alloc::Global;

/// Of each place the one before it and the one behind it.
#[derive(Drop)]
pub(crate) struct Rings {
    pub(crate) before: Vec<u32>,
    pub(crate) behind: Vec<u32>,
}

impl Rings {
    /// So many places, each of which is alone: it stands before and behind itself.
    pub(crate) fn make(alloc: Global, places: u32) -> Result<Rings, NoMemory>
        ensures before { IfOk result (λ rings. IsAlone rings.before.items places) }
        ensures behind { IfOk result (λ rings. IsAlone rings.behind.items places) }
    {
        Ok(Rings {
            before: alone(alloc, places)?,
            behind: alone(alloc, places)?,
        })
    }

    /// Puts a place behind another.
    pub(crate) fn insert(&mut self, place: u32, new: u32)
        requires befores { length self.old.before.items ≡ length self.old.behind.items }
        requires place { place < length self.old.behind.items }
        requires new { new < length self.old.behind.items }
        requires next { place_at self.old.behind.items place < length self.old.behind.items }
        ensures before { self.new.before.items
            ≡ slice_set (slice_set self.old.before.items new place)
            (place_at self.old.behind.items place) new }
        ensures behind { self.new.behind.items
            ≡ slice_set (slice_set self.old.behind.items new (place_at self.old.behind.items place))
            place new }
    {
        let next = self.behind[place as usize];
        self.behind[new as usize] = next;
        self.behind[place as usize] = new;
        self.before[new as usize] = place;
        self.before[next as usize] = new;
    }

    /// Takes a place out of its ring, so that it is alone.
    pub(crate) fn remove(&mut self, place: u32)
        requires befores { length self.old.before.items ≡ length self.old.behind.items }
        requires place { place < length self.old.behind.items }
        requires last { place_at self.old.before.items place < length self.old.behind.items }
        requires next { place_at self.old.behind.items place < length self.old.behind.items }
        ensures before { self.new.before.items
            ≡ slice_set
            (slice_set self.old.before.items (place_at self.old.behind.items place)
            (place_at self.old.before.items place)) place place }
        ensures behind { self.new.behind.items
            ≡ slice_set
            (slice_set self.old.behind.items (place_at self.old.before.items place)
            (place_at self.old.behind.items place)) place place }
    {
        let last = self.before[place as usize];
        let next = self.behind[place as usize];
        self.before[next as usize] = last;
        self.before[place as usize] = place;
        self.behind[last as usize] = next;
        self.behind[place as usize] = place;
    }
}

// So many places, each of them its own neighbour.
fn alone(alloc: Global, places: u32) -> Result<Vec<u32>, NoMemory>
    ensures { IfOk result (λ made. IsAlone made.items places) }
{
    let Ok(mut made) = Vec::with_capacity(alloc, places as usize) else {
        return Err(NoMemory);
    };
    for place in 0..places {
        made.push_reserved(place);
    }
    Ok(made)
}
