//! The sockets of a front, and what the system says of them.
ghost use Rattle.std.specs.Prelude.{◌≡◌, ◌≢◌, ◌==◌, ◌≤◌, ◌&&◌, IfSome, None, Some, [], is_some, length, not, true, false};
ghost use Rattle.std.specs.List.{IsDistinct};
ghost use Rattle.mio.specs.Events.{capacity as events_capacity, items};
ghost use Rattle.mpm_base.specs.Front.{Hands};
ghost use Rattle.mpm_base.specs.Link.{OnlyFaults};
ghost use Rattle.socket_outside.specs.AskingInside.{asks_again};

use crate::addresses::{control_address, listen_address};
use crate::bell::{SharedBell, SocketBell};
use crate::control::ControlPort;
use mio::net::TcpListener;
use mio::{Events, Interest, Poll, Registry, Token, Waker};
use mpm_base::{Addr, Arrival, Line, Link, NoMemory, Ready};
use socket_links::{
    BELL, CONTROL, LISTENER, Marks, NoStream, SocketLink, accept_next, fill_up, give_slots,
    woke_for,
};
use std::alloc::Global;
use std::io;
use std::net::{Net, SocketAddr};
use std::sync::Arc;
use std::time::Duration;
use system_outside::Operator;

/// How many events one wait takes at most: so many that of the 256 slots that a wait gives at most 64 are left for links that gave way.
const MOST_EVENTS: usize = 192;

/// The sockets of a front, where it is bound, and what it knows of them.
#[derive(Drop)]
pub(crate) struct Sockets {
    // What waits, from the first bind or bell on.
    poll: Option<Poll>,
    bell: Option<Arc<SharedBell>>,
    events: Events,
    listener: Option<TcpListener>,
    // The system is asked for a connection only while this mark stands.
    asks: bool,
    control: ControlPort,
    marks: Arc<Marks>,
    // The group of slots with which the next wait begins to give those of links that gave way.
    turn: u32,
    ghost few: { events_capacity events ≤ 192 },
}

/// The sockets that a bind opens, which are watched.
#[derive(Drop)]
struct Opened {
    listener: TcpListener,
    control: Option<TcpListener>,
}

impl Sockets {
    /// No sockets, and marks for so many slots. It takes all its memory here.
    pub(crate) fn make(alloc: Global, slots: u32) -> Result<Sockets, NoMemory> {
        let Ok(events) = Events::with_capacity(alloc, MOST_EVENTS) else {
            return Err(NoMemory);
        };
        let control = ControlPort::make(alloc)?;
        let Ok(marks) = Arc::new(alloc, Marks::make(alloc, slots)?) else {
            return Err(NoMemory);
        };
        Ok(Sockets {
            poll: None,
            bell: None,
            events,
            listener: None,
            asks: false,
            control,
            marks,
            turn: 0,
        })
    }

    /// Where connections are taken, as the system says it.
    pub(crate) fn listens_at(&self) -> Option<SocketAddr> {
        self.listener.as_ref()?.local_addr().ok()
    }

    /// Gives up the sockets that are open, and opens these. It answers false where one can't be opened, of which the operator hears: then
    /// none is open.
    pub(crate) fn open<R: Net + Eprint>(
        &mut self,
        net: &R,
        operator: &Operator<'_, R>,
        listen: Addr,
        control: Option<u16>,
    ) -> bool
        ensures listens { is_some self.new.listener ≡ result }
        ensures controls { is_some self.new.control.listener ≡ (result && is_some control) }
        ensures asks { self.new.asks ≡ result }
    {
        self.give_up();
        let address = listen_address(listen);
        if let Err(error) = self.begin(net) {
            operator.hear_of_fault("listen on", address, error);
            return false;
        }
        let opened = match &self.poll {
            Some(poll) => open_sockets(net, operator, poll.registry(), address, control),
            None => return false,
        };
        match opened {
            Some(opened) => {
                self.listener = Some(opened.listener);
                self.control.open(opened.control);
                self.restock();
                self.asks = true;
                true
            }
            None => false,
        }
    }

    /// Begins to wait for what is watched, where it didn't yet.
    fn begin<R: Net>(&mut self, net: &R) -> io::Result<()>
        ensures listener { self.new.listener ≡ self.old.listener }
        ensures control { self.new.control ≡ self.old.control }
        ensures asks { self.new.asks ≡ self.old.asks }
    {
        if self.poll.is_none() {
            self.poll = Some(Poll::new(net)?);
        }
        Ok(())
    }

    /// Gives up all sockets.
    fn give_up(&mut self)
        ensures listener { is_some self.new.listener ≡ false }
        ensures control { is_some self.new.control.listener ≡ false }
        ensures asks { self.new.asks ≡ false }
    {
        self.hush();
        self.control.open(None);
    }

    /// The bell that brings a wait back. It answers NoMemory also where the system has none to give.
    pub(crate) fn bell<R: Net>(&mut self, net: &R, alloc: Global) -> Result<SocketBell, NoMemory> {
        self.hang_bell(net, alloc)?;
        let Some(bell) = &self.bell else {
            return Err(NoMemory);
        };
        match Arc::try_clone(bell) {
            Ok(bell) => Ok(SocketBell::of(bell)),
            Err(_) => Err(NoMemory),
        }
    }

    /// Has a bell bring waits back from now on, where none did yet.
    fn hang_bell<R: Net>(&mut self, net: &R, alloc: Global) -> Result<(), NoMemory> {
        if self.bell.is_some() {
            return Ok(());
        }
        let _ = self.begin(net);
        let Some(poll) = &self.poll else {
            return Err(NoMemory);
        };
        let Ok(waker) = Waker::new(poll.registry(), BELL) else {
            return Err(NoMemory);
        };
        let Ok(bell) = Arc::new(alloc, SharedBell::of(waker)) else {
            return Err(NoMemory);
        };
        self.bell = Some(bell);
        Ok(())
    }

    /// A wait begins. It answers whether a bell was rung, or a link gave way, since the last one: then this one is not to last.
    pub(crate) fn begin_wait(&self) -> bool {
        let gave_way = self.marks.way.begin_wait();
        let rung = match &self.bell {
            Some(bell) => bell.begin_wait(),
            None => false,
        };
        rung || gave_way
    }

    /// The wait ends.
    pub(crate) fn end_wait(&self) {
        if let Some(bell) = &self.bell {
            bell.end_wait();
        }
    }

    /// Gives up the listening socket.
    pub(crate) fn hush(&mut self)
        ensures listener { is_some self.new.listener ≡ false }
        ensures control { self.new.control ≡ self.old.control }
        ensures asks { self.new.asks ≡ false }
    {
        self.listener = None;
        self.asks = false;
    }

    /// Whether a control connection may wait of which no event tells again.
    pub(crate) fn asks_control(&self) -> bool
        ensures { result ≡ self.now.control.asks }
    {
        self.control.asks()
    }

    /// Keeps descriptors in reserve for control connections and for what commands open, where the system has some to give.
    pub(crate) fn restock(&mut self)
        ensures others { self.new ≡ record self.old { control = self.new.control } }
        ensures listener { self.new.control.listener ≡ self.old.control.listener }
        ensures asks { self.new.control.asks ≡ self.old.control.asks }
    {
        if let Some(poll) = &self.poll {
            self.control.restock(poll.registry());
        }
    }

    /// Takes the control connections that wait, and reads on from each.
    pub(crate) fn attend_control(&mut self) {
        if let Some(poll) = &self.poll {
            self.control.attend(poll.registry());
        }
    }

    /// The command line that waited longest.
    pub(crate) fn take_line(&mut self) -> Option<Line> {
        self.control.take_line()
    }

    /// Gives up the descriptor that is kept for what a command opens.
    pub(crate) fn give_up_spare(&mut self) {
        self.control.give_up_spare();
    }

    /// The sender of the line that was given last gets the text.
    pub(crate) fn answer(&mut self, text: &[u8]) {
        self.control.answer(text);
    }

    /// Has the slot given from now on where something comes for the link. It answers false where that failed.
    pub(crate) fn watch(&self, link: &mut SocketLink, slot: u32) -> bool
        ensures { let seen = ⟦<SocketLink as Link>⟧.seen in
            OnlyFaults (not result) (seen link.old).counts (seen link.new).counts }
    {
        match &self.poll {
            Some(poll) => link.watch(poll.registry(), slot),
            None => link.refuse_watch(),
        }
    }

    #[tactic(auto, using(crate::proofs::WaitLemmas::distinct_none))]
    /// Waits so many milliseconds at most, and gives the slots for which something came, and behind them those of links that gave way.
    /// Where it took as many events as it can, more may have come, and the list is filled up with numbers that no slot has. It answers
    /// false where the wait failed, and None where it was interrupted and is asked again.
    pub(crate) fn wait(&mut self, longest: Option<u64>, ready: &mut Ready) -> Option<bool>
        ensures none { result ≢ Some true → ready.new ≡ [] }
        ensures few { length ready.new ≤ 256 }
        ensures full { result ≡ Some true → length (items self.new.events) ≡ 192
            → length ready.new ≡ 256 }
        ensures once { IsDistinct (λ a b. a == b) ready.new }
    {
        ready.clear();
        let Some(poll) = &mut self.poll else {
            return Some(false);
        };
        let answer = poll.poll(&mut self.events, longest.map(Duration::from_millis));
        let woke = woke_for(answer);
        if woke != Some(true) {
            return woke;
        }
        let noticed = give_slots(&self.events, &self.marks, ready);
        self.turn = self.marks.way.give(self.turn, ready);
        if self.events.iter().as_slice().len() == MOST_EVENTS {
            fill_up(ready);
        }
        self.asks = self.asks || noticed.arrivals;
        if noticed.control || self.control.asks() {
            self.control.attend(poll.registry());
        }
        Some(true)
    }

    /// The next connection. The mark stands until none waits, and none is asked for where it doesn't stand. What is kept in reserve for
    /// control connections stays.
    pub(crate) fn accept(&mut self) -> Arrival<SocketLink>
        ensures hands { Hands (⟦<SocketLink as Link>⟧.seen) None result }
        ensures asks { self.new.asks ≡ asks_again result self.old.asks }
        ensures none { self.old.asks ≡ false → result ≡ Arrival.None }
        ensures control { self.new.control ≡ self.old.control }
    {
        if !self.asks {
            return Arrival::None;
        }
        let Ok(marks) = Arc::try_clone(&self.marks) else {
            return Arrival::Failed;
        };
        let answer = match &self.listener {
            Some(listener) => accept_next(listener),
            None => Err(NoStream::NoneWaits),
        };
        match answer {
            Ok(socket) => Arrival::Some(SocketLink::of(socket, marks)),
            Err(NoStream::NoneWaits) => {
                self.asks = false;
                Arrival::None
            }
            Err(_) => Arrival::Failed,
        }
    }
}

/// A listening socket at the address, which is watched under the token. It answers None where that failed, of which the
/// operator hears.
fn listen_at<R: Net + Eprint>(
    net: &R,
    operator: &Operator<'_, R>,
    registry: &Registry,
    address: SocketAddr,
    token: Token,
) -> Option<TcpListener> {
    match watched_listener(net, registry, address, token) {
        Ok(listener) => Some(listener),
        Err(error) => {
            operator.hear_of_fault("listen on", address, error);
            None
        }
    }
}

/// A listening socket at the address, which is watched under the token.
fn watched_listener<R: Net>(
    net: &R,
    registry: &Registry,
    address: SocketAddr,
    token: Token,
) -> io::Result<TcpListener> {
    let mut listener = TcpListener::bind(net, address)?;
    registry.register(&mut listener, token, Interest::READABLE)?;
    Ok(listener)
}

/// The listening socket, and behind it that of command lines on this machine, both watched.
fn open_sockets<R: Net + Eprint>(
    net: &R,
    operator: &Operator<'_, R>,
    registry: &Registry,
    address: SocketAddr,
    control: Option<u16>,
) -> Option<Opened>
    ensures { IfSome result (λ opened. is_some opened.control ≡ is_some control) }
{
    let listener = listen_at(net, operator, registry, address, LISTENER)?;
    let control = match control {
        Some(port) => {
            let address = control_address(port);
            Some(listen_at(net, operator, registry, address, CONTROL)?)
        }
        None => None,
    };
    Some(Opened { listener, control })
}
