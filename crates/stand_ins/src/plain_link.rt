//! A link in memory that never fails.
//! Why it is so stands in docs/DECISIONS.md: 2, Want of memory in the stand-ins.
ghost use Rattle.std.specs.Prelude.{◌≡◌, true, None, Some, ◌++◌, ◌≤◌, min, take, drop, length};
ghost use Rattle.mpm_base.specs.Link.{Reads, Writes, Shuts, Closes, with_received, after_shut, after_close, telling_link};
ghost use Rattle.stand_ins.specs.PlainLink.{new_link, read_answer, buffer_after_read, link_after_read, TakesWhole, link_after_write};

use mpm_base::{Got, Link, Octets, Sent};
use std::alloc::Global;
use std::marker::Model;

/// A link whose client sent certain bytes, and which has room for all that is written to it. No call of it
/// fails.
#[derive(Drop)]
pub struct PlainLink {
    coming: Octets,
    // How many bytes of `coming` reads gave, and how many of them before the first half-close.
    given: usize,
    given_before_shut: usize,
    ended: bool,
    taken: Octets,
    half_closed: u64,
    closed: u64,
    number: u64,
    not_ready_reads: u64,
    not_ready_writes: u64,
    end_reads: u64,
}

impl Model for PlainLink {
    ghost use Rattle.std.specs.Prelude.{◌≡◌, ◌≤◌, take, drop, length};
    ghost use Rattle.stand_ins.specs.PlainLink.{SeenLink};

    ghost Value = { SeenLink };

    ghost view = { λ l. record {
      told = record {
        received = take l.given l.coming;
        before_shut = take l.given_before_shut l.coming;
        coming = drop l.given l.coming;
        sent = l.taken;
        shuts = l.half_closed;
        closes = l.closed;
        rank = l.number;
      };
      counts = record {
        faults = 0;
        late_reads = l.not_ready_reads;
        late_writes = l.not_ready_writes;
        ends = l.end_reads;
      };
      ends = l.ended;
    } };

    ghost invariant = { λ l. (l.given ≤ length l.coming)
        × (l.half_closed ≡ 0 → l.given_before_shut ≡ l.given) × (l.given_before_shut ≤ l.given) };
}

impl PlainLink {
    /// A link of that number whose client sent the bytes `coming`, and no more where `ends`.
    pub fn make(alloc: Global, rank: u64, coming: Octets, ends: bool) -> PlainLink
        ensures { result ≡ new_link rank coming ends }
    {
        PlainLink {
            coming,
            given: 0,
            given_before_shut: 0,
            ended: ends,
            taken: Octets::make(alloc),
            half_closed: 0,
            closed: 0,
            number: rank,
            not_ready_reads: 0,
            not_ready_writes: 0,
            end_reads: 0,
        }
    }

    /// The bytes of the client that no read gave yet.
    pub fn left(&self) -> &[u8]
        ensures { result.now ≡ self.now.told.coming }
    {
        &self.coming.as_slice()[self.given..]
    }

    /// The bytes that its reads gave.
    pub fn received(&self) -> &[u8]
        ensures { result.now ≡ self.now.told.received }
    {
        &self.coming.as_slice()[..self.given]
    }

    /// Those of them before the first half-close, or all where there was none.
    pub fn before_shut(&self) -> &[u8]
        ensures { result.now ≡ self.now.told.before_shut }
    {
        &self.coming.as_slice()[..self.given_before_shut]
    }

    /// The bytes that its writes took.
    pub fn sent(&self) -> &[u8]
        ensures { result.now ≡ self.now.told.sent }
    {
        self.taken.as_slice()
    }

    /// How often it was half-closed.
    pub fn shuts(&self) -> u64
        ensures { result ≡ self.now.told.shuts }
    {
        self.half_closed
    }

    /// How often it was closed.
    pub fn closes(&self) -> u64
        ensures { result ≡ self.now.told.closes }
    {
        self.closed
    }

    /// The number that it was made with.
    pub fn rank(&self) -> u64
        ensures { result ≡ self.now.told.rank }
    {
        self.number
    }

    /// How many calls failed, which none does.
    pub fn faults(&self) -> u64
        ensures count { result ≡ self.now.counts.faults }
        ensures none { result ≡ 0 }
    {
        let _ = &self.closed;
        0
    }

    /// Notes that so many of the bytes that come were given.
    fn give(&mut self, count: usize)
        requires { count ≤ length self.old.told.coming }
        ensures { self.new ≡ record self.old { told = with_received count self.old.told } }
    {
        prove!(count <= self.coming.len() - self.given);
        self.given += count;
        if self.half_closed == 0 {
            self.given_before_shut = self.given;
        }
    }
}

/// Copies as many bytes as fit to the front of the buffer, and says how many.
fn copy_front(bytes: &[u8], buffer: &mut [u8]) -> usize
    ensures count { result ≡ min (length bytes.now) (length buffer.old) }
    ensures buffer { buffer.new ≡ take result bytes.now ++ drop result buffer.old }
{
    let count = bytes.len().min(buffer.len());
    buffer[..count].copy_from_slice(&bytes[..count]);
    count
}

impl Link for PlainLink {
    ghost seen = { λ l. telling_link l.told l.counts };

    ghost calls = { λ l. None };

    /// Answers NotReady and End only where no byte is left, and `Got(0)` only into an empty buffer.
    fn read(&mut self, buffer: &mut [u8]) -> Got
        ensures link { Reads (telling_link self.old.told self.old.counts)
            (telling_link self.new.told self.new.counts) result buffer.new }
        ensures answer { result
            ≡ read_answer self.old.told.coming self.old.ends (length buffer.old) }
        ensures buffer { buffer.new ≡ buffer_after_read result self.old.told.coming buffer.old }
        ensures state { self.new ≡ link_after_read result self.old }
    {
        let left = self.left();
        if left.is_empty() {
            if self.ended {
                self.end_reads = self.end_reads.saturating_add(1);
                return Got::End;
            }
            self.not_ready_reads = self.not_ready_reads.saturating_add(1);
            return Got::NotReady;
        }
        let count = copy_front(left, buffer);
        self.give(count);
        Got::Got(count as u64)
    }

    /// Takes the whole piece, or answers NotReady where memory for it lacks.
    fn write(&mut self, bytes: &[u8]) -> Sent
        ensures link { Writes (telling_link self.old.told self.old.counts)
            (telling_link self.new.told self.new.counts) result bytes.now }
        ensures answer { TakesWhole result (length bytes.now) }
        ensures state { self.new ≡ link_after_write result bytes.now self.old }
    {
        match self.taken.add(bytes) {
            Ok(()) => Sent::Put(bytes.len() as u64),
            Err(_) => {
                self.not_ready_writes = self.not_ready_writes.saturating_add(1);
                Sent::NotReady
            }
        }
    }

    /// Takes the whole of both pieces, or answers NotReady where memory for it lacks.
    fn write_pair(&mut self, first: &[u8], second: &[u8]) -> Sent
        ensures link { Writes (telling_link self.old.told self.old.counts)
            (telling_link self.new.told self.new.counts) result (first.now ++ second.now) }
        ensures answer { TakesWhole result (length (first.now ++ second.now)) }
        ensures state { self.new ≡ link_after_write result (first.now ++ second.now) self.old }
    {
        let before = self.taken.len();
        match self.taken.add_pair(first, second) {
            Ok(()) => Sent::Put((self.taken.len() - before) as u64),
            Err(_) => {
                self.not_ready_writes = self.not_ready_writes.saturating_add(1);
                Sent::NotReady
            }
        }
    }

    fn shut(&mut self) -> bool
        ensures link { Shuts (telling_link self.old.told self.old.counts)
            (telling_link self.new.told self.new.counts) result }
        ensures answer { result ≡ true }
        ensures state { self.new ≡ record self.old { told = after_shut true self.old.told } }
    {
        self.half_closed = self.half_closed.saturating_add(1);
        true
    }

    fn close(&mut self)
        ensures link { Closes (telling_link self.old.told self.old.counts)
            (telling_link self.new.told self.new.counts) }
        ensures state { self.new ≡ record self.old { told = after_close self.old.told } }
    {
        self.closed = self.closed.saturating_add(1);
    }
}
