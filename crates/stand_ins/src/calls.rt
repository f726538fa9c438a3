//! Which calls of a stand-in of the outside are to fail.
ghost use Rattle.std.specs.Prelude.{◌≡◌, true, [], ◌∷◌, ◌++◌, take, OnOk, OnErr};
ghost use Rattle.stand_ins.specs.Calls.{is_listed};

use mpm_base::NoMemory;
use std::alloc::Global;
use std::marker::Model;

/// A list of numbers of calls, from 1, as contracts see it. The number 0 is no call's.
#[derive(Drop)]
pub struct Calls {
    numbers: Vec<u64>,
}

impl Model for Calls {
    ghost use Rattle.std.specs.Prelude.{List, ℕ};

    ghost Value = { List ℕ };

    ghost view = { λ c. c.numbers.items };
}

impl Calls {
    /// The empty list, which takes no memory.
    pub fn make(alloc: Global) -> Calls
        ensures { result ≡ [] }
    {
        Calls {
            numbers: Vec::new(alloc),
        }
    }

    /// Puts a number at the end. Where memory lacks nothing changes.
    pub fn add(&mut self, number: u64) -> Result<(), NoMemory>
        ensures ok { OnOk result (self.new ≡ self.old ++ number ∷ []) }
        ensures err { OnErr result (self.new ≡ self.old) }
    {
        match self.numbers.push(number) {
            Ok(()) => Ok(()),
            Err(_) => Err(NoMemory),
        }
    }

    /// Whether the call of that number is to fail.
    pub fn has(&self, number: u64) -> bool
        ensures { result ≡ is_listed self.now number }
    {
        self.numbers.contains(&number)
    }

    /// Whether one of the first numbers of the list, so many of them, is this.
    pub(crate) fn has_among(&self, count: u64, number: u64) -> bool
        ensures is { result ≡ is_listed (take count self.now) number }
        ensures listed { result ≡ true → is_listed self.now number ≡ true }
    {
        self.numbers
            .iter()
            .take(count as usize)
            .any(|listed| *listed == number)
    }
}
