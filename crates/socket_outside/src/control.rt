//! The control port: the connections that bring command lines, and the lines that wait with the connections that brought them.
//! Why it is so stands in docs/DECISIONS.md: 114, How long a control connection is kept.
ghost use Rattle.std.specs.Prelude.{◌≡◌, ◌≢◌, ◌++◌, ℕ, List, IfOk, IfErr, None, [], map, nat_lt, length, true, false, if◌then◌else◌, ◌∷◌, is_some};
ghost use Rattle.std.specs.Option.{option_to_list};

use crate::command_lines::{Heard, Spoken};
use crate::short_queue::ShortQueue;
use mio::net::{TcpListener, TcpStream};
use mio::{Interest, Registry};
use mpm_base::{Line, NoMemory};
use socket_links::{CONTROL, NoStream, accept_next, write_some};
use std::alloc::Global;

/// How many connections are open at most whose line isn't whole.
const MOST_CALLERS: usize = 16;

/// How many lines wait at most.
const MOST_LINES: usize = 64;

/// How many connections one wait, or one accept, takes at most.
const MOST_TAKEN: u32 = 64;

/// A connection that brings a command line.
#[derive(Drop)]
struct Caller {
    socket: TcpStream,
    spoken: Spoken,
}

/// A command line that waits, and the connection that brought it.
#[derive(Drop)]
struct WaitingLine {
    line: Line,
    sender: TcpStream,
}

/// The socket that takes command lines; the connections that bring them, the oldest first; the lines that wait, each with its connection; and
/// that of the line that was given last, until it is answered.
#[derive(Drop)]
pub(crate) struct ControlPort {
    listener: Option<TcpListener>,
    // Connections may wait of which no event tells again: the system refused one, or as many were taken as one wait or accept may.
    asks: bool,
    callers: ShortQueue<Caller>,
    lines: ShortQueue<WaitingLine>,
    asked: Option<TcpStream>,
    // Two descriptors that do nothing. The one is given up where the system has none left for a connection, and the other one for what a
    // command opens.
    reserve: Option<Registry>,
    spare: Option<Registry>,
    ghost few_callers: { callers.most ≡ 16 },
    ghost few_lines: { lines.most ≡ 64 },
}

impl ControlPort {
    /// No socket, connection or line. It takes all its memory here.
    pub(crate) fn make(alloc: Global) -> Result<ControlPort, NoMemory> {
        Ok(ControlPort {
            listener: None,
            asks: false,
            callers: ShortQueue::make(alloc, MOST_CALLERS)?,
            lines: ShortQueue::make(alloc, MOST_LINES)?,
            asked: None,
            reserve: None,
            spare: None,
        })
    }

    /// Takes connections of that socket from now on, or of none.
    pub(crate) fn open(&mut self, listener: Option<TcpListener>)
        ensures { is_some self.new.listener ≡ is_some listener }
    {
        self.asks = false;
        self.asked = None;
        self.reserve = None;
        self.spare = None;
        self.listener = listener;
    }

    /// Whether a connection may wait that the system is to be asked for again.
    pub(crate) fn asks(&self) -> bool
        ensures { result ≡ self.now.asks }
    {
        self.asks
    }

    /// Keeps the descriptors in reserve, where they are not there and the system has some to give. It is done before a client is taken, and
    /// behind the answer of a restart, but not before that: so what the restart opens finds the descriptor that was given up for it.
    pub(crate) fn restock(&mut self, registry: &Registry)
        ensures kept { is_some self.old.reserve ≡ true → self.new.reserve ≡ self.old.reserve }
        ensures spared { is_some self.old.spare ≡ true → self.new.spare ≡ self.old.spare }
        ensures others { self.new
            ≡ record self.old { reserve = self.new.reserve; spare = self.new.spare } }
    {
        if self.reserve.is_none() {
            self.reserve = registry.try_clone().ok();
        }
        if self.spare.is_none() {
            self.spare = registry.try_clone().ok();
        }
    }

    /// The line that waited longest. Its connection stays open until it is answered; that of the line before is closed.
    pub(crate) fn take_line(&mut self) -> Option<Line>
        ensures line { map (λ (waiting : WaitingLine). waiting.line) self.old.lines.queue.items
            ≡ option_to_list result
            ++ map (λ (waiting : WaitingLine). waiting.line) self.new.lines.queue.items }
        ensures asked { is_some self.new.asked ≡ is_some result }
    {
        self.asked = None;
        let WaitingLine { line, sender } = self.lines.take()?;
        self.asked = Some(sender);
        Some(line)
    }

    /// Gives up the descriptor that is kept for what a command opens.
    pub(crate) fn give_up_spare(&mut self)
        ensures { self.new ≡ record self.old { spare = None } }
    {
        self.spare = None;
    }

    /// The sender of the line that was given last gets the text, as far as its connection takes it at once, and then that is closed.
    pub(crate) fn answer(&mut self, text: &[u8])
        ensures { self.new ≡ record self.old { asked = None } }
    {
        if let Some(sender) = self.asked.take() {
            let mut sender = sender;
            let _ = write_some(&mut sender, text);
        }
    }

    /// Something came, or may have: reads on, and takes the connections that wait.
    pub(crate) fn attend(&mut self, registry: &Registry) {
        self.hear_callers();
        self.asks = true;
        for _ in 0..MOST_TAKEN {
            let Some(caller) = self.next_caller() else {
                return;
            };
            self.admit(caller, registry);
        }
    }

    /// Reads on from each connection, and closes those from which nothing more is to come.
    fn hear_callers(&mut self) {
        for _ in 0..self.callers.len() {
            if let Some(caller) = self.callers.take() {
                self.hear(caller);
            }
        }
    }

    /// Reads on from a connection, and keeps it behind the others where more is to come.
    fn hear(&mut self, caller: Caller) {
        let mut caller = caller;
        let heard = caller.spoken.hear(&mut caller.socket);
        self.take_in(caller, heard);
    }

    /// Keeps the connection behind the others, while there are fewer than so many, where its line isn't whole. Where it is, line and connection
    /// are put behind those that wait, unless there are as many as may. Else the connection is closed.
    fn take_in(&mut self, caller: Caller, heard: Heard)
        ensures stays { heard ≡ Heard.More →
            let callers = self.old.callers.queue.items in
            let fits = nat_lt (length callers) 16 in
            self.new.callers.queue.items ≡ (if fits then callers ++ caller ∷ [] else callers) }
        ensures goes { heard ≢ Heard.More → self.new.callers ≡ self.old.callers }
        ensures line { (line : List ℕ) → heard ≡ Heard.Line line →
            let lines = self.old.lines.queue.items in
            let fits = nat_lt (length lines) 64 in
            let waiting : WaitingLine = record { line = line; sender = caller.socket } in
            self.new.lines.queue.items ≡ (if fits then lines ++ waiting ∷ [] else lines) }
    {
        match heard {
            Heard::More => {
                let _ = self.callers.put(caller);
            }
            Heard::Line(line) => {
                let sender = caller.socket;
                let _ = self.lines.put(WaitingLine { line, sender });
            }
            Heard::Nothing => (),
        }
    }

    /// Closes the oldest connection whose line isn't whole, where no further one may be open.
    fn make_place(&mut self) {
        if self.callers.len() == MOST_CALLERS {
            let _ = self.callers.take();
        }
    }

    /// The next connection that waits. The mark stands until none does. One is refused only where nothing is left in reserve.
    fn next_caller(&mut self) -> Option<TcpStream>
        ensures spent { is_some self.old.listener ≡ true → result ≡ None → self.new.asks ≡ true
            → self.new.reserve ≡ None }
    {
        let listener = self.listener.as_ref()?;
        match accept_with(listener, &mut self.reserve) {
            Ok(socket) => Some(socket),
            Err(NoStream::NoneWaits) => {
                self.asks = false;
                None
            }
            Err(_) => None,
        }
    }

    /// Reads from a connection that was just taken. One that can't be watched is closed.
    fn admit(&mut self, socket: TcpStream, registry: &Registry) {
        self.make_place();
        let mut socket = socket;
        if registry
            .register(&mut socket, CONTROL, Interest::READABLE)
            .is_ok()
        {
            self.hear(Caller {
                socket,
                spoken: Spoken::make(),
            });
        }
    }
}

/// The next connection that waits. Where the system refuses it what is kept in reserve is given up, and the system asked once more.
fn accept_with(
    listener: &TcpListener,
    reserve: &mut Option<Registry>,
) -> Result<TcpStream, NoStream>
    ensures passed { IfErr result (λ none. none ≢ NoStream.PassedOver) }
    ensures spent { IfErr result (λ none. none ≡ NoStream.Failed → reserve.new ≡ None) }
{
    match accept_next(listener) {
        Err(NoStream::Failed) if reserve.is_some() => {
            *reserve = None;
            accept_next(listener)
        }
        answer => answer,
    }
}
