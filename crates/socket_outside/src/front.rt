//! The front over sockets.
//! Why it is so stands in docs/DECISIONS.md: 115, What of an answer the operator is told.
ghost use Rattle.std.specs.Prelude.{◌≡◌, ◌==◌, ◌≤◌, ◌||◌, [], None, false, length};
ghost use Rattle.std.specs.List.{IsDistinct};
ghost use Rattle.mpm_base.specs.Front.{Accepts, FrontSeen, Waits, accept_failed};

use crate::bell::SocketBell;
use crate::clock::SystemClock;
use crate::dial::dial;
use crate::front_counters::FrontCounters;
use crate::sockets::Sockets;
use mpm_base::{
    Addr, Arrival, Clock, ConnName, Front, Line, Link, Moment, NoMemory, Octets, Ready, Woke,
};
use socket_links::{CALLS, SocketLink, longest_wait};
use std::alloc::Global;
use std::net::Net;
use std::sync::Wait;
use std::time;
use system_outside::Operator;

/// Connections, signals and command lines off the system's sockets, and moments off its clock. It tells nothing, and no wait of it
/// ends by itself. The operator hears of a bind, of a dial that failed,
/// and of what a restart was answered.
#[derive(Drop)]
pub struct SocketFront<'a, R: Net + time::Clock + Eprint> {
    net: &'a R,
    operator: &'a Operator<'a, R>,
    clock: SystemClock<'a, R>,
    sockets: Sockets,
    // Since the last wait an accept failed, or looked for control connections.
    pressed: bool,
    // Whether the line that was given last asks for a restart, and wasn't answered.
    restarts: bool,
    counters: FrontCounters,
}

impl<'a, R: Net + time::Clock + Eprint> SocketFront<'a, R> {
    /// A front that isn't bound, whose links are watched under so many slots. It takes all its memory here.
    pub fn make(
        net: &'a R,
        operator: &'a Operator<'a, R>,
        alloc: Global,
        clock: SystemClock<'a, R>,
        slots: u32,
    ) -> Result<SocketFront<'a, R>, NoMemory> {
        Ok(SocketFront {
            net,
            operator,
            clock,
            sockets: Sockets::make(alloc, slots)?,
            pressed: false,
            restarts: false,
            counters: FrontCounters::make(),
        })
    }

    /// Waits until something comes, until the moment or until a bell rings, and gives the slots for which something came, and those of links
    /// that gave way.
    fn wait_until(&mut self, until: Option<Moment>, pressed: bool, ready: &mut Ready) -> bool
        ensures counters { self.new.counters ≡ self.old.counters }
        ensures none { result ≡ false → ready.new ≡ [] }
        ensures few { length ready.new ≤ 256 }
        ensures once { IsDistinct (λ a b. a == b) ready.new }
    {
        let rung = self.sockets.begin_wait();
        let woke = self.poll(until, pressed, rung, ready);
        self.sockets.end_wait();
        woke
    }

    #[tactic(auto, using(crate::proofs::WaitLemmas::distinct_none))]
    /// Does the same, where it is known whether a bell was rung or a link gave way. A wait that is interrupted is asked again, and fails at last.
    fn poll(&mut self, until: Option<Moment>, pressed: bool, rung: bool, ready: &mut Ready) -> bool
        ensures counters { self.new.counters ≡ self.old.counters }
        ensures none { result ≡ false → ready.new ≡ [] }
        ensures few { length ready.new ≤ 256 }
        ensures once { IsDistinct (λ a b. a == b) ready.new }
    {
        for _ in 0..CALLS {
            let last = self.clock.last();
            let now = self.clock.now(last);
            let longest = longest_wait(now, until, pressed, rung);
            if let Some(woke) = self.sockets.wait(longest, ready) {
                return woke;
            }
        }
        ready.clear();
        false
    }
}

impl<'a, R: Net + time::Clock + Eprint> Front for SocketFront<'a, R> {
    type L = SocketLink;

    type B = SocketBell;

    ghost seen = { λ f. record { script = None; told = None; counts = f.counters } };

    fn bind(&mut self, listen: Addr, control: Option<u16>) -> bool {
        let bound = self.sockets.open(self.net, self.operator, listen, control);
        if bound {
            self.operator.hear_of_start(self.sockets.listens_at());
        }
        self.counters.test(bound);
        bound
    }

    /// Lasts no longer than a tenth of a second where an accept since the last wait failed or looked for control connections, or
    /// where one of these may wait of which no event tells again; and not at all where the bell was rung, or a link gave way, since the
    /// last wait. `quiet` means nothing to it. No slot is given twice. The slots of links that gave way stand behind those for which
    /// something came; where not all of them fit, the others are given by the waits behind it, which come at once too. Where the system
    /// gave as many events as one wait takes, 192, more may have come, and of some of these no slot tells: then the list is filled up with
    /// numbers that no slot has.
    fn wait<W: Wait>(
        &mut self,
        _rt: &W,
        until: Option<Moment>,
        _quiet: bool,
        ready: &mut Ready,
    ) -> Woke
        ensures waits { let old : FrontSeen =
            record { script = None; told = None; counts = self.old.counters } in
            let new : FrontSeen =
            record { script = None; told = None; counts = self.new.counters } in
            Waits old new until _quiet result ready.new }
        ensures once { IsDistinct (λ a b. a == b) ready.new }
        ensures pressed { self.new.pressed ≡ false }
    {
        let pressed = self.pressed || self.sockets.asks_control();
        let woke = self.wait_until(until, pressed, ready);
        self.pressed = false;
        self.counters.wait(woke);
        if woke {
            let last = self.clock.last();
            Woke::Woke(self.clock.now(last))
        } else {
            Woke::Failed
        }
    }

    /// Control connections that the system refused before come first, and what is kept in reserve for further ones: else each descriptor
    /// that another connection gives back would go to a client, and no command line would be heard. The next wait is short where the call
    /// fails, or looked for control connections.
    fn accept(&mut self) -> Arrival<SocketLink>
        ensures accepts { let old : FrontSeen =
            record { script = None; told = None; counts = self.old.counters } in
            let new : FrontSeen =
            record { script = None; told = None; counts = self.new.counters } in
            Accepts (⟦<SocketLink as Link>⟧.seen) old new result }
        ensures pressed { let owes = self.old.sockets.control.asks in
            self.new.pressed ≡ (self.old.pressed || (accept_failed result || owes)) }
    {
        let owes = self.sockets.asks_control();
        if owes {
            self.sockets.attend_control();
        }
        self.sockets.restock();
        let arrival = self.sockets.accept();
        self.pressed = self.pressed || has_failed(&arrival) || owes;
        self.counters.accept(&arrival);
        arrival
    }

    fn watch(&mut self, name: ConnName, link: &mut SocketLink) -> bool {
        self.sockets.watch(link, name.slot)
    }

    fn turn_away(&mut self, link: SocketLink) {
        let mut link = link;
        link.close();
    }

    /// Gives up the listening socket, and keeps that of command lines.
    fn hush(&mut self) {
        self.sockets.hush();
    }

    /// A restart finds the descriptor that is kept for what it opens.
    fn command(&mut self) -> Option<Line> {
        let line = self.sockets.take_line();
        self.restarts = asks_to_restart(&line);
        if self.restarts {
            self.sockets.give_up_spare();
        }
        self.counters.command(&line);
        line
    }

    /// It is one write. The operator hears of the answer of a restart.
    fn answer(&mut self, text: &[u8]) {
        self.sockets.answer(text);
        if self.restarts {
            self.operator.hear_of_answer(text);
            self.sockets.restock();
        }
        self.restarts = false;
        self.counters.answer(text);
    }

    /// Connects to the port, sends the word and a line feed, and reads until the server closes. Of what it reads the first 512 bytes are the
    /// answer. It fails too where memory lacks for that, and then sends nothing.
    fn dial(&mut self, port: u16, word: &str, answer: &mut Octets) -> bool {
        let dialled = dial(self.net, self.operator, port, word, answer);
        self.counters.test(dialled);
        dialled
    }

    /// It answers NoMemory also where the system has no bell to give.
    fn bell(&mut self, alloc: Global) -> Result<SocketBell, NoMemory> {
        self.sockets.bell(self.net, alloc)
    }
}

/// Whether the accept failed.
fn has_failed(arrival: &Arrival<SocketLink>) -> bool
    ensures { result ≡ accept_failed arrival.now }
{
    match arrival {
        Arrival::Failed => true,
        Arrival::Some(_) | Arrival::None => false,
    }
}

/// Whether the line asks for a restart.
fn asks_to_restart(line: &Option<Line>) -> bool {
    match line {
        Some(line) => line.as_str() == "graceful",
        None => false,
    }
}
