//! A connection's way to its client over a socket.
ghost use Rattle.std.specs.Prelude.{◌≡◌, ◌+◌, ◌≤◌, ◌++◌, length, not, true, false, None};
ghost use Rattle.mpm_base.specs.Link.{Closes, FitsBuffer, FitsPiece, LinkSeen, OnlyFaults, Reads, Shuts, Writes};
ghost use Rattle.socket_links.specs.Answers.{count_of_got, leaves_some};
ghost use Rattle.socket_links.specs.GivingWay.{GivesWay, TakesWay, count_of_sent};

use crate::allowance::Allowance;
use crate::answers::{lacks_room, read_some, shut_for, write_pair_some, write_some};
use crate::counters::LinkCounters;
use crate::emptied::empties;
use crate::place::{LinkPlace, Marks};
use mio::net::TcpStream;
use mio::{Interest, Registry, Token};
use mpm_base::{Got, Link, Sent};
use std::net::Shutdown;
use std::sync::Arc;

/// A link over a non-blocking socket, which it gives back where it is closed or dropped. It tells nothing.
///
/// It gives way to others: since the last wait of its front it gives at most 16,384 bytes by reads and takes at most 1,048,576 by
/// writes. What is asked of it beyond that it puts off: it answers NotReady, as it does where the system does, and the next wait gives its
/// slot.
///
/// Where a read was short of its room nothing more stands there, and until the system tells of something that came the next one answers
/// NotReady, which is counted, without a call of it.
#[derive(Drop)]
pub struct SocketLink {
    socket: Option<TcpStream>,
    place: LinkPlace,
    allowance: Allowance,
    counters: LinkCounters,
}

impl SocketLink {
    /// The link over the socket, which is non-blocking.
    pub fn of(socket: TcpStream, marks: Arc<Marks>) -> SocketLink
        ensures { result.counters
            ≡ record { faults = 0; late_reads = 0; late_writes = 0; ends = 0 } }
    {
        SocketLink {
            socket: Some(socket),
            place: LinkPlace::of(marks),
            allowance: Allowance::make(),
            counters: LinkCounters::make(),
        }
    }

    /// Has the registry report the slot from now on where the socket becomes readable or writable. It answers false where that failed.
    pub fn watch(&mut self, registry: &Registry, slot: u32) -> bool
        ensures { OnlyFaults (not result) self.old.counters self.new.counters }
    {
        let watched = match &mut self.socket {
            Some(socket) => registry
                .register(
                    socket,
                    Token(slot as usize),
                    Interest::READABLE | Interest::WRITABLE | Interest::PRIORITY,
                )
                .is_ok(),
            None => false,
        };
        if watched {
            self.place.watch(slot);
        }
        self.counters.test(watched);
        watched
    }

    /// There is nothing to watch the socket with.
    pub fn refuse_watch(&mut self) -> bool
        ensures is { result ≡ false }
        ensures counts { OnlyFaults true self.old.counters self.new.counters }
    {
        self.counters.test(false);
        false
    }

    #[tactic(auto, using(crate::proofs::GivingLemmas::fits_buffer, crate::proofs::GivingLemmas::got_count))]
    /// Reads into the front of the buffer, as far as the link may give since the last wait. Where nothing can stand there nothing is
    /// read, and where it may give no more it gives way.
    fn give(&mut self, buffer: &mut [u8]) -> Got
        ensures fits { FitsBuffer result (length buffer.new) }
        ensures closed { self.old.socket ≡ None → result ≡ Got.Failed }
        ensures few { self.new.allowance.given + count_of_got result ≤ 16384 }
        ensures same { self.new.allowance ≡ self.old.allowance }
        ensures counts { self.new.counters ≡ self.old.counters }
    {
        let most = self.allowance.may_give(buffer.len());
        if self.socket.is_some() && self.place.has_emptied() {
            return Got::NotReady;
        }
        if most == 0 && self.socket.is_some() {
            self.place.give_way();
            return Got::NotReady;
        }
        self.place.begin_read();
        let got = match &mut self.socket {
            Some(socket) => read_some(socket, &mut buffer[..most]),
            None => Got::Failed,
        };
        self.place.end_read(empties(got, most));
        got
    }

    #[tactic(auto, using(crate::proofs::GivingLemmas::fits_piece, crate::proofs::GivingLemmas::sent_count))]
    /// Writes from the front of the piece, as far as the link may take since the last wait. Where it may take no more it gives way.
    fn take(&mut self, bytes: &[u8]) -> Sent
        ensures fits { FitsPiece result (length bytes.now) }
        ensures closed { self.old.socket ≡ None → result ≡ Sent.Failed }
        ensures few { self.new.allowance.taken + count_of_sent result ≤ 1048576 }
        ensures same { self.new.allowance ≡ self.old.allowance }
        ensures counts { self.new.counters ≡ self.old.counters }
        ensures place { self.new.place ≡ self.old.place }
    {
        let most = self.allowance.may_take(bytes.len());
        if most == 0 && self.socket.is_some() {
            self.place.give_way();
            return Sent::NotReady;
        }
        match &mut self.socket {
            Some(socket) => write_some(socket, &bytes[..most]),
            None => Sent::Failed,
        }
    }

    #[tactic(auto, using(crate::proofs::GivingLemmas::fits_piece, crate::proofs::GivingLemmas::sent_count))]
    /// Writes from the front of the one piece followed by the other, as far as the link may take since the last wait. Where it may take
    /// no more it gives way.
    fn take_pair(&mut self, first: &[u8], second: &[u8]) -> Sent
        ensures fits { FitsPiece result (length (first.now ++ second.now)) }
        ensures closed { self.old.socket ≡ None → result ≡ Sent.Failed }
        ensures few { self.new.allowance.taken + count_of_sent result ≤ 1048576 }
        ensures same { self.new.allowance ≡ self.old.allowance }
        ensures counts { self.new.counters ≡ self.old.counters }
        ensures place { self.new.place ≡ self.old.place }
    {
        let front = self.allowance.may_take(first.len());
        let most = self.allowance.may_take(first.len() + second.len());
        if most == 0 && self.socket.is_some() {
            self.place.give_way();
            return Sent::NotReady;
        }
        match &mut self.socket {
            Some(socket) => write_pair_some(socket, &first[..front], &second[..most - front]),
            None => Sent::Failed,
        }
    }
}

impl Link for SocketLink {
    ghost seen = { λ l. record { told = None; counts = l.counters } };

    ghost calls = { λ l. None };

    /// It answers Failed where the link was closed.
    fn read(&mut self, buffer: &mut [u8]) -> Got
        ensures link { let old : LinkSeen = record { told = None; counts = self.old.counters } in
            let new : LinkSeen = record { told = None; counts = self.new.counters } in
            Reads old new result buffer.new }
        ensures closed { self.old.socket ≡ None → result ≡ Got.Failed }
        ensures way { GivesWay self.old.allowance self.new.allowance result }
    {
        self.allowance.count_since(self.place.last_wait());
        let got = self.give(buffer);
        self.allowance.read(got);
        self.counters.read(got);
        got
    }

    /// It answers Failed where the link was closed. It lacks room from then on exactly where something is left to be written.
    fn write(&mut self, bytes: &[u8]) -> Sent
        ensures link { let old : LinkSeen = record { told = None; counts = self.old.counters } in
            let new : LinkSeen = record { told = None; counts = self.new.counters } in
            Writes old new result bytes.now }
        ensures closed { self.old.socket ≡ None → result ≡ Sent.Failed }
        ensures room { self.new.place.lacks ≡ leaves_some result (length bytes.now) }
        ensures way { TakesWay self.old.allowance self.new.allowance result }
    {
        self.place.set_lacks(true);
        self.allowance.count_since(self.place.last_wait());
        let sent = self.take(bytes);
        self.place.set_lacks(lacks_room(sent, bytes.len()));
        self.allowance.write(sent);
        self.counters.write(sent);
        sent
    }

    /// It answers Failed where the link was closed. It lacks room from then on exactly where something is left to be written.
    fn write_pair(&mut self, first: &[u8], second: &[u8]) -> Sent
        ensures link { let old : LinkSeen = record { told = None; counts = self.old.counters } in
            let new : LinkSeen = record { told = None; counts = self.new.counters } in
            Writes old new result (first.now ++ second.now) }
        ensures closed { self.old.socket ≡ None → result ≡ Sent.Failed }
        ensures room { self.new.place.lacks ≡ leaves_some result (length (first.now ++ second.now)) }
        ensures way { TakesWay self.old.allowance self.new.allowance result }
    {
        self.place.set_lacks(true);
        self.allowance.count_since(self.place.last_wait());
        let sent = self.take_pair(first, second);
        self.place
            .set_lacks(lacks_room(sent, first.len() + second.len()));
        self.allowance.write(sent);
        self.counters.write(sent);
        sent
    }

    /// It answers false where the link was closed.
    fn shut(&mut self) -> bool
        ensures link { let old : LinkSeen = record { told = None; counts = self.old.counters } in
            let new : LinkSeen = record { told = None; counts = self.new.counters } in
            Shuts old new result }
        ensures closed { self.old.socket ≡ None → result ≡ false }
    {
        let shut = match &self.socket {
            Some(socket) => shut_for(socket.shutdown(Shutdown::Write)),
            None => false,
        };
        self.counters.test(shut);
        shut
    }

    /// Gives the socket back at once. The link has none from then on.
    fn close(&mut self)
        ensures link { let old : LinkSeen = record { told = None; counts = self.old.counters } in
            let new : LinkSeen = record { told = None; counts = self.new.counters } in
            Closes old new }
        ensures gone { self.new.socket ≡ None }
    {
        self.socket = None;
        self.place.leave();
    }
}
