//! How many bytes of a connection go between two waits of the front.
ghost use Rattle.std.specs.Prelude.{◌≡◌, ◌≤◌, ◌+◌, ◌-◌, min};
ghost use Rattle.socket_links.specs.Answers.{count_of_got};
ghost use Rattle.socket_links.specs.GivingWay.{count_of_sent, given_since, taken_since};

use mpm_base::{Got, Sent};
use std::marker::Model;

/// How many bytes a link gives at most by reads between two waits of its front.
const MOST_GIVEN: usize = 16_384;

/// How many bytes it takes at most by writes between two waits.
const MOST_TAKEN: usize = 1_048_576;

/// What a link gave by reads, and took by writes, since a wait of its front.
#[derive(Drop)]
pub(crate) struct Allowance {
    // The number of that wait.
    wait: u64,
    given: usize,
    taken: usize,
}

impl Model for Allowance {
    ghost use Rattle.std.specs.Prelude.{◌≤◌};
    ghost use Rattle.socket_links.specs.GivingWay.{Passed};

    ghost Value = { Passed };

    ghost view = { λ a. record {
      wait = a.wait;
      given = a.given;
      taken = a.taken;
    } };

    ghost invariant = { λ a. (a.given ≤ 16384) × (a.taken ≤ 1048576) };
}

impl Allowance {
    /// Nothing was given or taken.
    pub(crate) fn make() -> Allowance
        ensures { result ≡ record { wait = 0; given = 0; taken = 0 } }
    {
        Allowance {
            wait: 0,
            given: 0,
            taken: 0,
        }
    }

    /// From now on it counts since the wait of that number, the last one.
    pub(crate) fn count_since(&mut self, wait: u64)
        ensures { self.new ≡ record {
          wait = wait;
          given = given_since wait self.old;
          taken = taken_since wait self.old;
        } }
    {
        if self.wait != wait {
            self.wait = wait;
            self.given = 0;
            self.taken = 0;
        }
    }

    /// How many bytes the link may give where so many are asked for.
    pub(crate) fn may_give(&self, room: usize) -> usize
        ensures is { result ≡ min room (16384 - self.now.given) }
        ensures few { self.now.given + result ≤ 16384 }
    {
        room.min(MOST_GIVEN - self.given)
    }

    /// How many bytes the link may take where so many are offered.
    pub(crate) fn may_take(&self, size: usize) -> usize
        ensures is { result ≡ min size (1048576 - self.now.taken) }
        ensures few { self.now.taken + result ≤ 1048576 }
    {
        size.min(MOST_TAKEN - self.taken)
    }

    /// A read answered this.
    pub(crate) fn read(&mut self, got: Got)
        requires few { self.old.given + count_of_got got ≤ 16384 }
        ensures { self.new
            ≡ record self.old { given = self.old.given + count_of_got got } }
    {
        if let Got::Got(count) = got {
            self.given += count as usize;
        }
    }

    /// A write answered this.
    pub(crate) fn write(&mut self, sent: Sent)
        requires few { self.old.taken + count_of_sent sent ≤ 1048576 }
        ensures { self.new
            ≡ record self.old { taken = self.old.taken + count_of_sent sent } }
    {
        if let Sent::Put(count) = sent {
            self.taken += count as usize;
        }
    }
}
