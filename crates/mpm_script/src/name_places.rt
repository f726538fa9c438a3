//! Names in order, each found by a map.
//! Why it is so stands in docs/DECISIONS.md: 16, The reader of scripts and speed.
ghost use Rattle.std.specs.Prelude.{◌≡◌, ◌++◌, ◌∷◌, false, [], length, bytes_eq, IfSome, IfNone, OnOk, OnErr};
ghost use Rattle.std.specs.List.{AllByRecursion};
ghost use Rattle.mpm_script.specs.NamePlaces.{IsNamedAt, line_place};

use mpm_base::{NoMemory, Octets};
use std::alloc::Global;
use std::collections::HashMap;
use std::marker::Model;

/// Names in the order in which they were added, as contracts see it. Where one stands first is found by a map, and so in a
/// time that doesn't grow with their number.
#[derive(Drop)]
pub struct NamePlaces {
    places: HashMap<Vec<u8>, usize>,
    names: Vec<Octets>,
}

impl Model for NamePlaces {
    ghost use Rattle.std.specs.Prelude.{List, ℕ};

    ghost Value = { List (List ℕ) };

    ghost view = { λ n. n.names.items };

    ghost use Rattle.mpm_script.specs.NamePlacesInside.{FindsPlaces};

    ghost invariant = { λ n. FindsPlaces n.places n.names.items };
}

impl NamePlaces {
    /// No name, which takes no memory.
    pub fn make(alloc: Global) -> NamePlaces
        ensures { result ≡ [] }
    {
        NamePlaces {
            places: HashMap::new(alloc),
            names: Vec::new(alloc),
        }
    }

    /// How many names there are.
    pub fn count(&self) -> usize
        ensures { result ≡ length self.now }
    {
        self.names.len()
    }

    /// The place of the first name that is this one, from 0.
    pub fn place(&self, name: &[u8]) -> Option<usize>
        ensures is { result ≡ line_place name.now self.now }

        // So that name stands there, and where there is no place none of the names is this one.
        ensures named { IfSome result (λ place. IsNamedAt name.now place self.now) }
        ensures missing { IfNone result
            (AllByRecursion (λ other. bytes_eq name.now other ≡ false) self.now) }
    {
        self.found(name)
    }

    /// The place that the map has.
    fn found(&self, name: &[u8]) -> Option<usize>
        ensures { result ≡ line_place name.now self.now }
    {
        self.places.get(name).copied()
    }

    /// Puts the name at the end. Where memory lacks nothing changes.
    pub fn add(&mut self, alloc: Global, name: &[u8]) -> Result<(), NoMemory>
        ensures ok { OnOk result (self.new ≡ self.old ++ name.now ∷ []) }
        ensures err { OnErr result (self.new ≡ self.old) }
    {
        let place = self.count();
        let text = Octets::of(alloc, name)?;
        self.names.reserve(1)?;
        if !self.places.contains_key(name) {
            let key = Vec::from_slice(alloc, name)?;
            self.places.insert(key, place)?;
        }
        match self.names.push(text) {
            Ok(()) => Ok(()),
            Err(_) => unreachable!(),
        }
    }
}
