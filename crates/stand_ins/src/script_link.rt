//! A link in memory some of whose calls fail, and whose bytes may come little by little.
//! Why it is so stands in docs/DECISIONS.md: 11, Every call counts for `fail`.
ghost use Rattle.std.specs.Prelude.{◌≡◌, ◌≤◌, true, false, None, Some, ◌++◌, length, is_some};
ghost use Rattle.mpm_base.specs.Link.{Reads, Writes, Shuts, Closes, OnlyFaults, GivesNext, FitsBuffer, FitsPiece, read_failed, after_read, after_write, after_close, telling_link};
ghost use Rattle.stand_ins.specs.Calls.{is_listed, next_is_listed};
ghost use Rattle.stand_ins.specs.PlainLink.{buffer_after_read, read_answer};
ghost use Rattle.stand_ins.specs.ScriptLink.{new_script_link, new_paced_link, read_may_fail, script_read_answer, script_link_after_read, TakesWholeUnless, script_link_after_write, script_link_after_shut, script_link_after_failed_watch};

use crate::calls::Calls;
use crate::link_counters::LinkCounters;
use crate::plain_link::PlainLink;
use crate::wire::Wire;
use mpm_base::{Got, Link, LinkCall, Octets, Sent};
use std::alloc::Global;
use std::marker::Model;
use std::sync::Arc;

/// A link whose client sends certain bytes, and whose listed reads and writes fail. Either all has come and there is room
/// for all that is written, or a front says how much has come, how much it may take, which of the listed calls are to fail
/// by now, and whether the link was dropped, so that each call of it but its close fails.
#[derive(Drop)]
pub struct ScriptLink {
    inner: PlainLink,
    wire: Option<Arc<Wire>>,
    counters: LinkCounters,
    read_calls: u64,
    write_calls: u64,
    bad_reads: Calls,
    bad_writes: Calls,
    drops: bool,
}

impl Model for ScriptLink {
    ghost use Rattle.std.specs.Prelude.{is_some};
    ghost use Rattle.stand_ins.specs.ScriptLink.{SeenScriptLink};

    ghost Value = { SeenScriptLink };

    ghost view = { λ l. record {
      told = l.inner.told;
      counts = l.counters;
      ends = l.inner.ends;
      paced = is_some l.wire;
      drops = l.drops;
      reads = l.read_calls;
      writes = l.write_calls;
      fail_reads = l.bad_reads;
      fail_writes = l.bad_writes;
    } };
}

impl ScriptLink {
    /// A link of that number whose client sent the bytes `coming`, and no more where `ends`, and which has room for all
    /// that is written to it. The reads and the writes of the listed numbers fail; every call counts, whatever it
    /// answers.
    pub fn make(
        alloc: Global,
        rank: u64,
        coming: Octets,
        ends: bool,
        fail_reads: Calls,
        fail_writes: Calls,
    ) -> ScriptLink
        ensures { result ≡ new_script_link rank coming ends fail_reads fail_writes }
    {
        ScriptLink {
            inner: PlainLink::make(alloc, rank, coming, ends),
            wire: None,
            counters: LinkCounters::make(),
            read_calls: 0,
            write_calls: 0,
            bad_reads: fail_reads,
            bad_writes: fail_writes,
            drops: false,
        }
    }

    /// A link of that number whose client sends the bytes `coming` in all. The front that has the wire says how many of
    /// them came, whether the end has, and for how many bytes there is room. It says besides how many lines by which a
    /// read or a write fails have happened: the numbers are those of all these lines, in order, and a call fails only
    /// where its line has. Only where the script `drops` the link may it be dropped.
    pub fn paced(
        alloc: Global,
        rank: u64,
        coming: Octets,
        wire: Arc<Wire>,
        fail_reads: Calls,
        fail_writes: Calls,
        drops: bool,
    ) -> ScriptLink
        ensures { result ≡ new_paced_link rank coming fail_reads fail_writes drops }
    {
        ScriptLink {
            inner: PlainLink::make(alloc, rank, coming, false),
            wire: Some(wire),
            counters: LinkCounters::make(),
            read_calls: 0,
            write_calls: 0,
            bad_reads: fail_reads,
            bad_writes: fail_writes,
            drops,
        }
    }

    /// A watch of the link failed, which it counts.
    pub fn fail_watch(&mut self)
        ensures is { self.new ≡ script_link_after_failed_watch self.old }
        ensures only_faults { OnlyFaults true self.old.counts self.new.counts }
    {
        self.counters.shut(false);
    }

    /// The bytes of the client that no read gave yet.
    pub fn left(&self) -> &[u8]
        ensures { result.now ≡ self.now.told.coming }
    {
        self.inner.left()
    }

    /// The bytes that its reads gave.
    pub fn received(&self) -> &[u8]
        ensures { result.now ≡ self.now.told.received }
    {
        self.inner.received()
    }

    /// The bytes that its writes took.
    pub fn sent(&self) -> &[u8]
        ensures { result.now ≡ self.now.told.sent }
    {
        self.inner.sent()
    }

    /// How often it was half-closed.
    pub fn shuts(&self) -> u64
        ensures { result ≡ self.now.told.shuts }
    {
        self.inner.shuts()
    }

    /// How often it was closed.
    pub fn closes(&self) -> u64
        ensures { result ≡ self.now.told.closes }
    {
        self.inner.closes()
    }

    /// The number that it was made with.
    pub fn rank(&self) -> u64
        ensures { result ≡ self.now.told.rank }
    {
        self.inner.rank()
    }

    /// How many calls failed.
    pub fn faults(&self) -> u64
        ensures { result ≡ self.now.counts.faults }
    {
        self.counters.faults()
    }

    /// Whether the link was dropped by now.
    fn is_dropped(&self) -> bool
        ensures only { result ≡ true → self.now.drops ≡ true }
        ensures unpaced { self.now.paced ≡ false → result ≡ false }
    {
        match &self.wire {
            Some(wire) => self.drops && wire.dropped(),
            None => false,
        }
    }

    /// Whether the next read is to fail.
    fn read_fails(&self) -> bool
        ensures only { result ≡ true → read_may_fail self.now ≡ true }
        ensures unpaced { self.now.paced ≡ false →
            result ≡ next_is_listed self.now.fail_reads self.now.reads }
    {
        let number = self.read_calls.saturating_add(1);
        self.is_dropped() || is_failing(&self.wire, LinkCall::Read, &self.bad_reads, number)
    }

    /// Whether the next write is to fail, but for want of memory.
    fn write_fails(&self) -> bool
        ensures { self.now.paced ≡ false →
            result ≡ next_is_listed self.now.fail_writes self.now.writes }
    {
        let number = self.write_calls.saturating_add(1);
        self.is_dropped() || is_failing(&self.wire, LinkCall::Write, &self.bad_writes, number)
    }
}

/// Whether the call of that number is to fail: where there is no wire if it is listed, and else if its line has happened
/// too.
fn is_failing(wire: &Option<Arc<Wire>>, call: LinkCall, listed: &Calls, number: u64) -> bool
    ensures only { result ≡ true → is_listed listed.now number ≡ true }
    ensures unpaced { is_some wire.now ≡ false → result ≡ is_listed listed.now number }
{
    match wire {
        Some(wire) => listed.has_among(wire.fails(call), number),
        None => listed.has(number),
    }
}

/// Reads what came by now, and finds the end only where it has come and no byte is left.
fn read_came(inner: &mut PlainLink, wire: &Wire, buffer: &mut [u8]) -> Got
    ensures told { inner.new.told ≡ after_read result inner.old.told }
    ensures ends { inner.new.ends ≡ inner.old.ends }
    ensures gives { GivesNext result buffer.new inner.old.told }
    ensures fits { FitsBuffer result (length buffer.new) }
    ensures buffer { buffer.new ≡ buffer_after_read result inner.old.told.coming buffer.old }
    ensures never { read_failed result ≡ false }
{
    let left = inner.left().len();
    let given = inner.received().len() as u64;
    let here = wire.came().saturating_sub(given).min(left as u64) as usize;
    if here == 0 {
        if left == 0 && wire.ended() {
            return Got::End;
        }
        return Got::NotReady;
    }
    let room = here.min(buffer.len());
    inner.read(&mut buffer[..room])
}

/// Reads all that is left where there is no wire, and else what came by now.
fn read_by(inner: &mut PlainLink, wire: &Option<Arc<Wire>>, buffer: &mut [u8]) -> Got
    ensures told { inner.new.told ≡ after_read result inner.old.told }
    ensures ends { inner.new.ends ≡ inner.old.ends }
    ensures gives { GivesNext result buffer.new inner.old.told }
    ensures fits { FitsBuffer result (length buffer.new) }
    ensures buffer { buffer.new ≡ buffer_after_read result inner.old.told.coming buffer.old }
    ensures never { read_failed result ≡ false }
    ensures answer { is_some wire.now ≡ false →
        result ≡ read_answer inner.old.told.coming inner.old.ends (length buffer.old) }
{
    match wire {
        Some(wire) => read_came(inner, wire, buffer),
        None => inner.read(buffer),
    }
}

/// For how many of so many bytes there is room.
fn room_for(wire: &Option<Arc<Wire>>, taken: usize, size: usize) -> usize
    ensures within { result ≤ size }
    ensures all { is_some wire.now ≡ false → result ≡ size }
{
    match wire {
        Some(wire) => {
            let room = wire.limit().saturating_sub(taken as u64);
            room.min(size as u64) as usize
        }
        None => size,
    }
}

/// Says how many bytes the link took in all.
fn tell_taken(wire: &Option<Arc<Wire>>, taken: usize) {
    if let Some(wire) = wire {
        wire.take(taken as u64);
    }
}

/// Writes as much as there is room for. Answers Failed only where memory for it lacks.
fn write_by(inner: &mut PlainLink, wire: &Option<Arc<Wire>>, bytes: &[u8]) -> Sent
    ensures told { inner.new.told ≡ after_write result bytes.now inner.old.told }
    ensures ends { inner.new.ends ≡ inner.old.ends }
    ensures fits { FitsPiece result (length bytes.now) }
    ensures answer { is_some wire.now ≡ false → TakesWholeUnless false result (length bytes.now) }
{
    let room = room_for(wire, inner.sent().len(), bytes.len());
    if room == 0 && !bytes.is_empty() {
        return Sent::NotReady;
    }
    if let Sent::Put(count) = inner.write(&bytes[..room]) {
        tell_taken(wire, inner.sent().len());
        return Sent::Put(count);
    }
    Sent::Failed
}

/// Writes as much of the one piece followed by the other as there is room for. Answers Failed only where memory for it lacks.
fn write_pair_by(
    inner: &mut PlainLink,
    wire: &Option<Arc<Wire>>,
    first: &[u8],
    second: &[u8],
) -> Sent
    ensures told { inner.new.told ≡ after_write result (first.now ++ second.now) inner.old.told }
    ensures ends { inner.new.ends ≡ inner.old.ends }
    ensures fits { FitsPiece result (length (first.now ++ second.now)) }
    ensures answer { is_some wire.now ≡ false →
        TakesWholeUnless false result (length (first.now ++ second.now)) }
{
    let taken = inner.sent().len();
    let of_first = room_for(wire, taken, first.len());
    if of_first < first.len() {
        return write_by(inner, wire, first);
    }
    let of_second = room_for(wire, taken.saturating_add(of_first), second.len());
    if of_first == 0 && of_second == 0 && !second.is_empty() {
        return Sent::NotReady;
    }
    if let Sent::Put(count) = inner.write_pair(first, &second[..of_second]) {
        tell_taken(wire, inner.sent().len());
        return Sent::Put(count);
    }
    Sent::Failed
}

impl Link for ScriptLink {
    ghost seen = { λ l. telling_link l.told l.counts };

    ghost calls = { λ l. None };

    /// Gives what came by now. Answers NotReady where there is none at this moment, End only where no byte is left and the
    /// end has come, and Failed only where the call is listed, or the script drops the link.
    fn read(&mut self, buffer: &mut [u8]) -> Got
        ensures link { Reads (telling_link self.old.told self.old.counts)
            (telling_link self.new.told self.new.counts) result buffer.new }
        ensures failed { read_failed result ≡ true → read_may_fail self.old ≡ true }
        ensures answer { self.old.paced ≡ false →
            result ≡ script_read_answer self.old (length buffer.old) }
        ensures buffer { buffer.new ≡ buffer_after_read result self.old.told.coming buffer.old }
        ensures state { self.new ≡ script_link_after_read result self.old }
    {
        let fails = self.read_fails();
        self.read_calls = self.read_calls.saturating_add(1);
        if fails {
            self.counters.read(Got::Failed);
            return Got::Failed;
        }
        let answer = read_by(&mut self.inner, &self.wire, buffer);
        self.counters.read(answer);
        answer
    }

    /// Takes as much of the piece as there is room for. Answers NotReady where there is none for a piece that is not
    /// empty, and Failed where the call is listed, the script drops the link, or memory for the piece lacks.
    fn write(&mut self, bytes: &[u8]) -> Sent
        ensures link { Writes (telling_link self.old.told self.old.counts)
            (telling_link self.new.told self.new.counts) result bytes.now }
        ensures answer { self.old.paced ≡ false →
            TakesWholeUnless (next_is_listed self.old.fail_writes self.old.writes) result
            (length bytes.now) }
        ensures state { self.new ≡ script_link_after_write result bytes.now self.old }
    {
        let fails = self.write_fails();
        self.write_calls = self.write_calls.saturating_add(1);
        if fails {
            self.counters.write(Sent::Failed);
            return Sent::Failed;
        }
        let answer = write_by(&mut self.inner, &self.wire, bytes);
        self.counters.write(answer);
        answer
    }

    /// Takes as much of the one piece followed by the other as there is room for, by one write, as `write` takes of one piece.
    fn write_pair(&mut self, first: &[u8], second: &[u8]) -> Sent
        ensures link { Writes (telling_link self.old.told self.old.counts)
            (telling_link self.new.told self.new.counts) result (first.now ++ second.now) }
        ensures answer { self.old.paced ≡ false →
            TakesWholeUnless (next_is_listed self.old.fail_writes self.old.writes) result
            (length (first.now ++ second.now)) }
        ensures state { self.new
            ≡ script_link_after_write result (first.now ++ second.now) self.old }
    {
        let fails = self.write_fails();
        self.write_calls = self.write_calls.saturating_add(1);
        if fails {
            self.counters.write(Sent::Failed);
            return Sent::Failed;
        }
        let answer = write_pair_by(&mut self.inner, &self.wire, first, second);
        self.counters.write(answer);
        answer
    }

    /// Answers false only where the script drops the link.
    fn shut(&mut self) -> bool
        ensures link { Shuts (telling_link self.old.told self.old.counts)
            (telling_link self.new.told self.new.counts) result }
        ensures answer { self.old.drops ≡ false → result ≡ true }
        ensures state { self.new ≡ script_link_after_shut result self.old }
    {
        let answer = !self.is_dropped() && self.inner.shut();
        self.counters.shut(answer);
        answer
    }

    fn close(&mut self)
        ensures link { Closes (telling_link self.old.told self.old.counts)
            (telling_link self.new.told self.new.counts) }
        ensures state { self.new ≡ record self.old { told = after_close self.old.told } }
    {
        self.inner.close();
        if let Some(wire) = &self.wire {
            wire.close();
        }
    }
}
