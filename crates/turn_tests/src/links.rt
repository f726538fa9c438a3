//! A link of a test: a scripted one, which waits at some calls for what can only come while its caller hasn't the turn.
ghost use Rattle.std.specs.Prelude.{◌≡◌};

use crate::tally::Tally;
use mpm_base::{Got, Link, Sent};
use stand_ins::{ScriptLink, Wire};
use std::sync::Arc;

/// Of how many clients one looks for a turn of the listener.
const LOOKS: u32 = 64;

/// Of how many clients one holds its worker.
const HOLDS: u32 = 8;

/// A scripted link, which tells nothing of itself, as a socket.
#[derive(Drop)]
pub struct TestLink {
    inner: ScriptLink,
    wire: Arc<Wire>,
    tally: Arc<Tally>,
    client: u32,
    pace: Option<u64>,
    calls: u32,
}

impl TestLink {
    /// The link of the client of that number, which gives and takes so much at each second call, or all at once.
    pub fn of(
        inner: ScriptLink,
        wire: Arc<Wire>,
        tally: Arc<Tally>,
        client: u32,
        pace: Option<u64>,
    ) -> TestLink
        ensures { result.inner ≡ inner }
    {
        TestLink {
            inner,
            wire,
            tally,
            client,
            pace,
            calls: 0,
        }
    }

    /// A call begins.
    fn begin(&mut self)
        ensures { self.new.inner ≡ self.old.inner }
    {
        self.calls = self.calls.saturating_add(1);
        wait_at(&self.tally, self.client, self.calls);
        pace_by(&self.wire, self.pace, self.calls);
        let habits = self.tally.habits();
        if habits.services != 0 && self.tally.is_over() {
            self.wire.end();
        }
    }
}

/// The client of that number waits at this call of its link, where it has to.
fn wait_at(tally: &Tally, client: u32, calls: u32) {
    let habits = tally.habits();
    if habits.look && client % LOOKS == 0 {
        tally.look();
    }
    if habits.hold && client % HOLDS == 0 && calls == 1 {
        tally.hold(client.saturating_add(1));
    }
}

/// A paced link gives and takes so much at each second call, and nothing at the others.
fn pace_by(wire: &Wire, pace: Option<u64>, calls: u32) {
    if let Some(pace) = pace {
        let some = if calls % 2 == 0 { pace } else { 0 };
        wire.bring(some);
        wire.allow(Some(some));
    }
}

impl Link for TestLink {
    ghost use Rattle.std.specs.Prelude.{None};

    ghost seen = { λ l. record { told = None; counts = l.inner.counts } };

    ghost calls = { λ l. None };

    fn read(&mut self, buffer: &mut [u8]) -> Got {
        self.begin();
        self.inner.read(buffer)
    }

    fn write(&mut self, bytes: &[u8]) -> Sent {
        self.begin();
        self.inner.write(bytes)
    }

    fn write_pair(&mut self, first: &[u8], second: &[u8]) -> Sent {
        self.begin();
        self.inner.write_pair(first, second)
    }

    fn shut(&mut self) -> bool {
        self.begin();
        let shut = self.inner.shut();
        if shut {
            self.tally.part(self.client, self.inner.sent());
        }
        shut
    }

    fn close(&mut self) {
        self.begin();
        self.inner.close();
        self.tally.part(self.client, self.inner.sent());
    }
}
