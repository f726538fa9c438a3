//! A link in memory whose client sends more than is kept anywhere.
ghost use Rattle.std.specs.Prelude.{◌≡◌, ◌≤◌, None, Some, length};

use http_server::Log;
use mpm_base::{Got, Link, NoMemory, Octets, Sent, Sequence};
use std::alloc::Global;

/// Which part of its bytes a client sends now.
#[derive(Clone, Copy)]
enum Part {
    Front,
    Unit,
    Back,
    Nothing,
}

/// A client that sends a front, a unit so many times, and a back, none of which is empty. It makes these bytes as they are read.
#[derive(Drop)]
struct LongClient {
    // The front, how often the unit is sent, the unit and the back.
    parts: Sequence<Octets>,
    part: Part,
    // How many bytes of the part were given, and how many units follow it.
    given: usize,
    times: u64,
}

impl LongClient {
    /// The bytes of the part that were not given yet.
    fn rest(&self) -> &[u8] {
        let place = match self.part {
            Part::Front => 0,
            Part::Unit => 2,
            Part::Back => 3,
            Part::Nothing => return &[],
        };
        let part = match self.parts.get(place) {
            Some(part) => part.as_slice(),
            None => &[],
        };
        &part[self.given.min(part.len())..]
    }

    /// The client goes on with the part behind the one that was given.
    fn go_on(&mut self) {
        self.given = 0;
        self.part = match self.part {
            Part::Front | Part::Unit if self.times > 0 => {
                self.times -= 1;
                Part::Unit
            }
            Part::Front | Part::Unit => Part::Back,
            Part::Back | Part::Nothing => Part::Nothing,
        };
    }

    /// Copies what is left of the part to the front of the buffer, as far as it fits, and says how many bytes.
    fn copy(&mut self, buffer: &mut [u8]) -> usize
        ensures fits { result ≤ length buffer.old }
        ensures room { length buffer.new ≡ length buffer.old }
    {
        let rest = self.rest();
        let count = rest.len().min(buffer.len());
        let is_whole = count == rest.len();
        buffer[..count].copy_from_slice(&rest[..count]);
        if is_whole {
            self.go_on();
        } else {
            self.given = self.given.saturating_add(count);
        }
        count
    }
}

/// How a link was called.
#[derive(Clone, Copy)]
pub struct LinkUse {
    /// How many reads there were.
    pub reads: u64,
    /// How many bytes the largest of them had room for.
    pub room: usize,
    /// How many writes there were, of one text or of two.
    pub writes: u64,
}

/// The link of such a client, which has room for all that is written to it. It tells its calls, and counts them.
#[derive(Drop)]
pub struct LongLink {
    client: LongClient,
    /// The bytes that its writes took.
    pub taken: Octets,
    /// How it was called so far.
    pub calls: LinkUse,
    // Kept for clauses alone.
    read_log: Log<usize, Got>,
    write_log: Log<usize, Sent>,
    faults: u64,
    late_reads: u64,
    ends: u64,
}

impl LongLink {
    /// A link of which nothing was read, of a client that sends these parts, one of them so many times.
    pub fn make(alloc: Global, parts: Sequence<Octets>, times: u64) -> LongLink {
        LongLink {
            client: LongClient {
                parts,
                part: Part::Front,
                given: 0,
                times,
            },
            taken: Octets::make(alloc),
            calls: LinkUse {
                reads: 0,
                room: 0,
                writes: 0,
            },
            read_log: Log::new(),
            write_log: Log::new(),
            faults: 0,
            late_reads: 0,
            ends: 0,
        }
    }
}

impl Link for LongLink {
    ghost seen = { λ l. record { told = None; counts = record { faults = l.faults; late_reads = l.late_reads; late_writes = 0; ends = l.ends } } };

    ghost calls = { λ l. Some (record { reads = l.read_log.items; writes = l.write_log.items }) };

    /// Gives bytes of one part.
    fn read(&mut self, buffer: &mut [u8]) -> Got {
        let room = buffer.len();
        self.calls.reads = self.calls.reads.saturating_add(1);
        self.calls.room = self.calls.room.max(room);
        let got = if matches!(self.client.part, Part::Nothing) {
            self.ends = self.ends.saturating_add(1);
            Got::End
        } else {
            let count = self.client.copy(buffer);
            if count == 0 {
                self.late_reads = self.late_reads.saturating_add(1);
                Got::NotReady
            } else {
                Got::Got(count as u64)
            }
        };
        self.read_log = self.read_log.and(&room, &got);
        got
    }

    fn write(&mut self, bytes: &[u8]) -> Sent {
        self.calls.writes = self.calls.writes.saturating_add(1);
        let sent = match self.taken.add(bytes) {
            Ok(()) => Sent::Put(bytes.len() as u64),
            Err(NoMemory) => {
                self.faults = self.faults.saturating_add(1);
                Sent::Failed
            }
        };
        self.write_log = self.write_log.and(&bytes.len(), &sent);
        sent
    }

    fn write_pair(&mut self, first: &[u8], second: &[u8]) -> Sent {
        self.calls.writes = self.calls.writes.saturating_add(1);
        let before = self.taken.len();
        let sent = match self.taken.add_pair(first, second) {
            Ok(()) => Sent::Put((self.taken.len() - before) as u64),
            Err(NoMemory) => {
                self.faults = self.faults.saturating_add(1);
                Sent::Failed
            }
        };
        self.write_log = self.write_log.and(&(first.len() + second.len()), &sent);
        sent
    }

    fn shut(&mut self) -> bool {
        true
    }

    fn close(&mut self) {}
}
