//! Names in order, each with the place at which it stood last before.
ghost use Rattle.std.specs.Prelude.{◌≡◌, ◌<◌, ◌∷◌, ◌++◌, [], length, slice_index_or, OnOk};
ghost use Rattle.mpm_script.specs.NameChains.{IsLastBelow};

use mpm_base::{NoMemory, Octets};
use std::alloc::Global;
use std::collections::HashMap;
use std::marker::Model;

/// Names in the order in which they were added, as contracts see it. All places of a name are found from the last one down,
/// that one by a map, and so in a time that doesn't grow with the number of other names.
#[derive(Drop)]
pub struct NameChains {
    last: HashMap<Vec<u8>, usize>,
    earlier: Vec<Option<usize>>,
    names: Vec<Octets>,
}

impl Model for NameChains {
    ghost use Rattle.std.specs.Prelude.{List, ℕ};

    ghost Value = { List (List ℕ) };

    ghost view = { λ n. n.names.items };

    ghost use Rattle.mpm_script.specs.NameChainsInside.{AreChained};

    ghost invariant = { λ n. AreChained n.last n.earlier.items n.names.items };
}

impl NameChains {
    /// No name, which takes no memory.
    pub fn make(alloc: Global) -> NameChains
        ensures { result ≡ [] }
    {
        NameChains {
            last: HashMap::new(alloc),
            earlier: Vec::new(alloc),
            names: Vec::new(alloc),
        }
    }

    /// The last place of the name.
    pub fn last(&self, name: &[u8]) -> Option<usize>
        ensures { IsLastBelow name.now (length self.now) self.now result }
    {
        self.last.get(name).copied()
    }

    /// The last place before that one at which its name stands too.
    pub fn earlier(&self, place: usize) -> Option<usize>
        requires { place < length self.now }
        ensures { IsLastBelow (slice_index_or self.now place []) place self.now result }
    {
        self.earlier[place]
    }

    /// Puts the name at the end. Where memory lacks nothing changes.
    pub fn add(&mut self, alloc: Global, name: &[u8]) -> Result<(), NoMemory>
        ensures { OnOk result (self.new ≡ self.old ++ name.now ∷ []) }
    {
        let text = Octets::of(alloc, name)?;
        let key = Vec::from_slice(alloc, name)?;
        let place = self.names.len();
        self.names.reserve(1)?;
        self.earlier.reserve(1)?;
        let earlier = self.last.insert(key, place)?;
        match self.names.push(text) {
            Ok(()) => match self.earlier.push(earlier) {
                Ok(()) => Ok(()),
                Err(_) => unreachable!(),
            },
            Err(_) => unreachable!(),
        }
    }
}
