//! The board's events.
//! Why it is so stands in docs/DECISIONS.md: 48, A board keeps its connections in a table of slots; 49, A board is moved as one box; 52, A
//! history is folded.
ghost use Rattle.std.specs.Prelude.{◌≡◌, ◌+◌, ◌<◌, ◌≤◌, ◌^◌, true, false, Some, None, [], ◌∷◌, ◌++◌, length, slice_set, IfOk, IfErr, OnOk, OnErr};
ghost use Rattle.mpm_base.specs.Shape.{is_in_bounds};
ghost use Rattle.conn_machine.specs.Shown.{snapshot_of, totals_of};
ghost use Rattle.conn_machine.specs.States.{is_halted, opening_state};
ghost use Rattle.conn_machine.specs.Table.{is_allowed, cell_at, reply, taken_reply};
ghost use Rattle.conn_machine.specs.Runs.{IsInPassOrderFrom, Run, after, first_row};
ghost use Rattle.conn_machine.specs.Folds.{CountsWithin, HasPlacesFor, HaveBegun, may_fold, opening_record};
ghost use Rattle.conn_machine.specs.Made.{AreMade, AreOfPasses};
ghost use Rattle.conn_machine.specs.Passes.{EachHasItsOwn};
ghost use Rattle.conn_machine.specs.Sizes.{IsSized};
ghost use Rattle.conn_machine.specs.Sound.{IsSound};
ghost use Rattle.conn_machine.specs.declared.event.Event.TheVariants as event;
ghost use Rattle.conn_machine.specs.declared.event.Commanded.TheVariants.{Stop};
ghost use Rattle.conn_machine.specs.declared.event.Reply.TheVariants.{Took};
ghost use Rattle.conn_machine.specs.declared.event.Why.TheVariants as reason;
ghost use Rattle.mpm_base.specs.Moment.{IsSecond};
ghost use Rattle.conn_state.specs.declared.turn.LastLinger.TheVariants as linger;
ghost use Rattle.conn_state.specs.Answered.{IsEnded, MayLinger};
ghost use Rattle.conn_state.specs.Conn.{SeenConn};
ghost use Rattle.conn_state.specs.Known.{IsOfClient};
ghost use Rattle.board.specs.Backed.{BacksWait};
ghost use Rattle.board_book.specs.Book.{AddsOnly, book_with_entry, row_in};
ghost use Rattle.board.specs.Board.{Agrees, AreOfOutside, conn_at, folded_board};
ghost use Rattle.board_book.specs.Editions.{UsedHaveEditions, edition_of, orders_in};
ghost use Rattle.board.specs.Editions.{IsOfGeneration};
ghost use Rattle.board_book.specs.Decided.{IsDecided};
ghost use Rattle.board.specs.Events.{IsAdded, IsTaken, with_recorded};
ghost use Rattle.board_book.specs.Faults.{IsNotTakenFor, IsRefusedFor};
ghost use Rattle.board_book.specs.Finds.{cause_of};
ghost use Rattle.board.specs.Fits.{FoundNoMore, IsClosing, IsOnItsWay, IsTakenUp, IsOf, IsSettled};

use crate::accept::slot_for_accept;
use crate::conns::{put_back, take_out};
use crate::laws::generations_keep_their_editions;
use crate::report_line::further_lines;
use crate::waits::wait_in_queue;
use board_book::{AcceptFault, BoardFault, Book};
use conn_machine::laws_of_runs::rows_change_one_at_a_time;
use conn_machine::{Commanded, Entry, Event, Folded, Kept, Reply, State, Totals, Why};
use conn_slots::Slots;
use conn_state::{Conn, Ended, Known, Nothing};
use mpm_base::{Ask, Cause, ConnName, Kind, Link, Moment, NoMemory, Note, Shape, Snapshot};
use stand_ins::PlainLink;
use std::alloc::Global;
use std::marker::{Model, PhantomData};
use timeout_queues::Queues;

/// The connection that was taken.
#[derive(Clone, Copy)]
pub struct Taken {
    /// Its name.
    pub name: ConnName,
    /// The number of its child.
    pub child: u32,
    /// The generation of its child.
    pub generation: u32,
}

/// The table of connections: its history, the connections that wait, and those that ended. Where `N` knows the outside, each link is
/// that of one of its clients, and each connection is served by the edition of its generation. It is moved as one box.
#[derive(Drop)]
pub struct Board<L: Link, N: Known> {
    // What `N` knows of the connections is kept by the board itself, so that a board forgets it without a move of its parts.
    pub(crate) parts: Box<Parts<L>>,
    of: PhantomData<N>,
}

/// What a board consists of.
#[derive(Drop)]
pub(crate) struct Parts<L: Link> {
    alloc: Global,
    pub(crate) book: Book,
    // The slot of each live row is taken; its item is None while the connection is in hand.
    conns: Slots<Option<Conn<L, Nothing>>>,
    ended: Vec<Ended<L>>,
    // The rows that wait, so that the first of them to be late is found.
    pub(crate) queues: Queues,
}

// A connection that waits after a hundred responses takes less than a thousand bytes, what it keeps of these among them.
const _: () = prove!(size_of::<Conn<PlainLink, Nothing>>() + 128 * size_of::<u16>() < 1000);

// A board is moved in few bytes, whatever its links are.
const _: () = prove!(size_of::<Board<PlainLink, Nothing>>() <= 100);

impl<L: Link, N: Known> Model for Board<L, N> {
    ghost use Rattle.board.specs.Board.{SeenBoard};

    ghost Value = { SeenBoard };

    ghost use Rattle.board.specs.BoardParts.{seen_board};
    ghost use Rattle.board.specs.BoardInside.{AreParts};

    ghost view = { λ b. seen_board b.parts.value };

    ghost invariant = { λ b. AreParts N.known b.parts.value };
}

impl<L: Link, N: Known> Kept for Board<L, N> {
    ghost use Rattle.board.specs.Ledger.{ledger_of};

    ghost ledger = { ledger_of };

    fn length(&self) -> u64 {
        let book = &self.parts.book;
        book.show();
        book.folded().entries + book.history().len() as u64
    }
}

impl<L: Link, N: Known> Board<L, N> {
    /// A board without connections, in its opening state, for passes with the numbers below `passes`. Takes the room that
    /// stopping it needs.
    pub fn make(
        alloc: Global,
        slots: u32,
        children: u32,
        passes: u32,
        shape: Shape,
    ) -> Result<Board<L, N>, NoMemory>
        requires slots { (1 ≤ slots) × (slots ≤ 8192) }
        requires children { (1 ≤ children) × (children ≤ 32) }
        requires passes { (1 ≤ passes) × (passes ≤ 4099) }
        requires shape { is_in_bounds shape ≡ true }
        ensures base { IfOk result (λ board. board.book.base ≡ opening_state slots children shape) }
        ensures folded { IfOk result (λ board. board.book.folded ≡ opening_record passes) }
        ensures history { IfOk result (λ board. board.book.history ≡ []) }
        ensures state { IfOk result
            (λ board. board.book.state ≡ opening_state slots children shape) }
        ensures passes { IfOk result (λ board. board.book.passes ≡ passes) }
        ensures ended { IfOk result (λ board. board.ended ≡ []) }
        ensures edition { IfOk result (λ board. edition_of board.book 0 ≡ Some 0) }
    {
        let conns = Slots::make(alloc, slots)?;
        let queues = Queues::make(alloc, slots)?;
        // the book comes last, so that no way out lets go of it
        let book = Book::open(alloc, slots, children, passes, shape)?;
        let parts = Parts {
            alloc,
            book,
            conns,
            ended: Vec::new(alloc),
            queues,
        };
        let Ok(parts) = Box::new(alloc, parts) else {
            return Err(NoMemory);
        };
        Ok(Board {
            parts,
            of: PhantomData,
        })
    }

    /// The same board, of a type that knows nothing of the outside. What the type knew of each connection is said of the board.
    pub fn forget(self) -> Board<L, Nothing>
        ensures same { result ≡ self }
        ensures outside { AreOfOutside N.known self }
    {
        let Board { parts, of: _ } = self;
        Board {
            parts,
            of: PhantomData,
        }
    }

    /// The entries of the history, oldest first.
    pub fn history(&self) -> &[Entry]
        ensures { result.now ≡ self.now.book.history }
    {
        self.parts.book.history()
    }

    /// What is known of the entries that were folded.
    pub fn folded(&self) -> &Folded
        ensures { result.now ≡ self.now.book.folded }
    {
        self.parts.book.folded()
    }

    /// The state after the history.
    pub fn state(&self) -> &State
        ensures { result.now ≡ self.now.book.state }
    {
        self.parts.book.state()
    }

    /// The connections that ended, in the order of their closes.
    pub fn ended(&self) -> &[Ended<L>]
        ensures { result.now ≡ self.now.ended }
    {
        self.parts.ended.as_slice()
    }

    /// What holds of every board: its history is one of the machine, from its base to its state, which are sound, in the order of
    /// its passes behind what was folded; each entry is one that its pass, one of so many, may make where it stands, and before the first
    /// of them each pass had a connection of its own, or none, and each one that somebody had was some pass's; the record of what was
    /// folded has a place for each pass, counts within its entries, and can count those of the history too; and the connections agree with
    /// the history. Where `N` knows the outside, the connections are of it.
    pub fn show(&self)
        ensures places { HasPlacesFor self.now.book.passes self.now.book.folded }
        ensures within { CountsWithin self.now.book.folded }
        ensures countable { self.now.book.folded.entries + length self.now.book.history < 2 ^ 63 }
        ensures run { Run self.now.book.base self.now.book.history }
        ensures order { IsInPassOrderFrom self.now.book.folded self.now.book.history }
        ensures made { AreMade self.now.book.base self.now.book.folded self.now.book.history }
        ensures few { AreOfPasses self.now.book.passes self.now.book.history }
        ensures own { EachHasItsOwn self.now.book.base (first_row self.now.book.folded) }
        ensures state { after self.now.book.base self.now.book.history ≡ self.now.book.state }
        ensures opened { IsSound self.now.book.base }
        ensures sound { IsSound self.now.book.state }
        ensures sized { IsSized self.now.book.state }
        ensures agrees { Agrees self.now }
        ensures outside { AreOfOutside N.known self.now }
    {
        self.parts.book.show();
    }

    /// What holds of the generations of every board: the editions of its record are those of generations that had begun before its
    /// history, and each generation in use has an edition, the newest one among them.
    pub fn show_editions(&self)
        ensures begun { HaveBegun self.now.book.base self.now.book.folded }
        ensures used { UsedHaveEditions self.now.book }
    {
        self.parts.book.show_editions();
    }

    /// How many commands `graceful` were taken or refused: the number of the last one.
    pub fn orders(&self) -> u64
        ensures { result ≡ orders_in self.now.book }
    {
        self.parts.book.orders()
    }

    /// What a status page shows of the state. It goes over the cells of the children, and over no connections.
    pub fn snapshot(&self, alloc: Global) -> Result<Snapshot, NoMemory>
        ensures { IfOk result (λ shown. shown ≡ snapshot_of self.now.book.state) }
    {
        self.parts.book.show();
        self.parts.book.state().snapshot(alloc)
    }

    /// The numbers that a status page shows of the state. It goes over the cells of the children, and over no connections, and takes no
    /// memory.
    pub fn totals(&self) -> Totals
        ensures { result ≡ totals_of self.now.book.state }
    {
        self.parts.book.show();
        self.parts.book.state().totals()
    }

    /// Whether the history may be folded: it weighs 65,536 or more, and fewer than 2 to the 62nd entries were folded before. An entry weighs
    /// 1, and one that keeps a page 64 more.
    pub fn can_fold(&self) -> bool
        ensures { result ≡ may_fold self.now.book.folded self.now.book.history }
    {
        self.parts.book.can_fold()
    }

    /// Folds the history: its entries and the connections that ended go, and the record counts them; the lines of the first 64
    /// connections that ended are kept, and the editions of the generations in use. Nothing else changes, and all room that was taken
    /// stays. Takes memory for those editions, and for those lines, where 64 aren't there.
    pub fn fold(&mut self) -> Result<(), NoMemory>
        requires { may_fold self.old.book.folded self.old.book.history ≡ true }
        ensures ok { OnOk result (self.new ≡ folded_board self.old) }
        ensures err { OnErr result (self.new ≡ self.old) }
    {
        let parts = &mut *self.parts;
        generations_keep_their_editions();
        parts.book.show();
        let folded = parts.book.folded();
        let lines = further_lines(
            parts.alloc,
            &folded.lines,
            folded.closed,
            parts.ended.as_slice(),
        )?;
        parts.book.fold(lines)?;
        parts.ended.clear();
        Ok(())
    }

    /// Takes a connection for the child that the rule of admission names, into a vacant slot. Takes the room that closing it
    /// needs.
    pub fn accept(&mut self, who: u32) -> Result<Taken, AcceptFault>
        requires who { who < self.old.book.passes }
        requires listener { who ≡ 0 }
        requires free { row_in who self.old.book ≡ None }
        ensures ok { IfOk result
            (λ taken. IsAdded who (event.Accept taken.name.slot) self.old self.new) }
        ensures taken { IfOk result
            (λ taken. IsTaken self.old.book.state taken.name taken.child taken.generation) }
        ensures why { IfErr result (λ fault. IsNotTakenFor fault self.old.book) }
        ensures err { OnErr result (self.new ≡ self.old) }
        ensures entries { AddsOnly who self.old.book self.new.book }
        ensures row { IfOk result (λ taken. row_in who self.new.book ≡ Some taken.name) }
    {
        let parts = &mut *self.parts;
        rows_change_one_at_a_time();
        let next = slot_for_accept(&parts.book, &parts.conns)?;
        let live = parts.book.state().rows.live_count();
        if parts.ended.reserve(live + 1).is_err() {
            return Err(AcceptFault::NoMemory);
        }
        let reply = match parts.book.record(who, Event::Accept(next.slot)) {
            Ok(reply) => reply,
            Err(fault) => return Err(AcceptFault::of(fault)),
        };
        let Reply::Took(name, child, generation) = reply else {
            unreachable!()
        };
        match parts.conns.put(None) {
            Ok(_) => (),
            Err(_) => unreachable!(),
        }
        Ok(Taken {
            name,
            child,
            generation,
        })
    }

    /// The connection waits. Where it is refused it comes back.
    pub fn park(
        &mut self,
        who: u32,
        kind: Kind,
        conn: Conn<L, N>,
    ) -> Result<(), (BoardFault, Conn<L, N>)>
        requires who { who < self.old.book.passes }
        requires row { row_in who self.old.book ≡ Some conn.name }
        requires allowed { is_halted self.old.book.state.going ≡ false
            → is_allowed self.old.book.state (event.Park conn.name kind) ≡ true }
        requires fits { IsOf self.old.book.state conn }
        requires settled { IsSettled kind (cause_of self.old.book.state conn.name) conn }
        requires turned { FoundNoMore kind conn }
        requires backed { BacksWait kind self.old.book.state conn }
        requires edition { IsOfGeneration N.known self.old.book conn.generation conn.reader.limits
            conn.site }
        ensures ok { OnOk result
            (IsAdded who (event.Park conn.name kind) self.old
            (record self.new { conns = self.old.conns })) }
        ensures parked { OnOk result
            (self.new.conns ≡ slice_set self.old.conns conn.name.slot (Some conn)) }
        ensures why { IfErr result (λ e. IsRefusedFor e.0 self.old.book) }
        ensures back { IfErr result (λ e. e.1 ≡ conn) }
        ensures err { OnErr result (self.new ≡ self.old) }
        ensures entries { AddsOnly who self.old.book self.new.book }
        ensures row { OnOk result (row_in who self.new.book ≡ None) }
    {
        let parts = &mut *self.parts;
        rows_change_one_at_a_time();
        conn.show();
        let name = conn.name();
        match parts.book.record(who, Event::Park(name, kind)) {
            Ok(_) => (),
            Err(fault) => return Err((fault, conn)),
        }
        wait_in_queue(&mut parts.queues, parts.book.state(), name);
        put_back(&mut parts.conns, name, conn);
        Ok(())
    }

    /// The listener takes a connection that waits. Takes no memory.
    pub fn hold(&mut self, who: u32, name: ConnName) -> Conn<L, N>
        requires who { who < self.old.book.passes }
        requires listener { who ≡ 0 }
        requires free { row_in who self.old.book ≡ None }
        requires allowed { is_allowed self.old.book.state (event.Hold name) ≡ true }
        ensures is { self.new
            ≡ record (with_recorded who (event.Hold name) self.old)
            { conns = slice_set self.old.conns name.slot None } }
        ensures conn { conn_at self.old.conns name.slot ≡ Some result }
        ensures name { result.name ≡ name }
        ensures handed { IsTakenUp self.new.book.state result }
        ensures way { IsOnItsWay (cause_of self.old.book.state name) result }
        ensures edition { IsOfGeneration N.known self.new.book result.generation
            result.reader.limits result.site }
        ensures entries { AddsOnly who self.old.book self.new.book }
        ensures row { row_in who self.new.book ≡ Some name }
    {
        let parts = &mut *self.parts;
        rows_change_one_at_a_time();
        parts.book.show();
        let _ = parts.book.record_sure(who, Event::Hold(name));
        let _ = parts.queues.unpark(name);
        take_out(&mut parts.conns, name)
    }

    /// The connection is handed out, to a worker of its child. Takes the room that its start and its closing need. Where it is
    /// refused it stays.
    pub fn queue(&mut self, who: u32, name: ConnName) -> Result<Conn<L, N>, BoardFault>
        requires who { who < self.old.book.passes }
        requires free { row_in who self.old.book ≡ None }
        requires allowed { is_halted self.old.book.state.going ≡ false
            → is_allowed self.old.book.state (event.Queue name) ≡ true }
        ensures ok { OnOk result
            (IsAdded who (event.Queue name) self.old (record self.new { conns = self.old.conns })) }
        ensures emptied { OnOk result (self.new.conns ≡ slice_set self.old.conns name.slot None) }
        ensures conn { IfOk result (λ conn. conn_at self.old.conns name.slot ≡ Some conn) }
        ensures name { IfOk result (λ conn. conn.name ≡ name) }
        ensures handed { IfOk result (λ conn. IsTakenUp self.new.book.state conn) }
        ensures stays_open { IfOk result (λ conn. conn.linger ≡ linger.Open) }
        ensures edition { IfOk result
            (λ conn. IsOfGeneration N.known self.new.book conn.generation conn.reader.limits
            conn.site) }
        ensures why { IfErr result (λ fault. IsRefusedFor fault self.old.book) }
        ensures err { OnErr result (self.new ≡ self.old) }
        ensures entries { AddsOnly who self.old.book self.new.book }
        ensures row { OnOk result (row_in who self.new.book ≡ Some name) }
    {
        let parts = &mut *self.parts;
        rows_change_one_at_a_time();
        parts.book.show();
        parts.book.record(who, Event::Queue(name))?;
        let _ = parts.queues.unpark(name);
        Ok(take_out(&mut parts.conns, name))
    }

    /// A worker begins to serve the connection: its cell. Takes no memory.
    pub fn start(&mut self, who: u32, name: ConnName) -> u32
        requires who { who < self.old.book.passes }
        requires row { row_in who self.old.book ≡ Some name }
        requires allowed { is_allowed self.old.book.state (event.Start name) ≡ true }
        ensures is { self.new ≡ with_recorded who (event.Start name) self.old }
        ensures cell { result ≡ cell_at self.old.book.state name.slot }
        ensures handed { (c : SeenConn)
            → IsTakenUp self.old.book.state c
            → IsTakenUp self.new.book.state c }
        ensures entries { AddsOnly who self.old.book self.new.book }
        ensures row { row_in who self.new.book ≡ Some name }
    {
        let parts = &mut *self.parts;
        rows_change_one_at_a_time();
        parts.book.show();
        let Reply::Cell(cell) = parts.book.record_sure(who, Event::Start(name)) else {
            unreachable!()
        };
        cell
    }

    /// A response is decided: its note. Where the response is the status page the note has what it shows.
    pub fn answer(&mut self, who: u32, name: ConnName, ask: Ask) -> Result<Note, BoardFault>
        requires who { who < self.old.book.passes }
        requires row { row_in who self.old.book ≡ Some name }
        requires allowed { is_halted self.old.book.state.going ≡ false
            → is_allowed self.old.book.state (event.Answer name ask) ≡ true }
        ensures ok { OnOk result (IsAdded who (event.Answer name ask) self.old self.new) }
        ensures note { IfOk result (λ note. IsDecided self.old.book.state name ask note) }
        ensures date { IfOk result (λ note. IsSecond note.date) }
        ensures why { IfErr result (λ fault. IsRefusedFor fault self.old.book) }
        ensures err { OnErr result (self.new ≡ self.old) }
        ensures entries { AddsOnly who self.old.book self.new.book }
        ensures row { row_in who self.new.book ≡ Some name }
    {
        let parts = &mut *self.parts;
        rows_change_one_at_a_time();
        parts.book.show();
        let note = parts.book.answer(who, name, &ask)?;
        Ok(note)
    }

    /// The service of the connection ended: it lingers, in the queue of its kind, until its client has ended too or its time is
    /// over. Takes no memory.
    pub fn linger(&mut self, who: u32, cause: Cause, conn: Conn<L, N>)
        requires who { who < self.old.book.passes }
        requires row { row_in who self.old.book ≡ Some conn.name }
        requires allowed { is_allowed self.old.book.state (event.Linger conn.name cause) ≡ true }
        requires fits { IsOf self.old.book.state conn }
        requires half_closed { conn.linger ≡ linger.Shut }
        requires shows { MayLinger cause conn }
        requires edition { IsOfGeneration N.known self.old.book conn.generation conn.reader.limits
            conn.site }
        ensures is { self.new
            ≡ record (with_recorded who (event.Linger conn.name cause) self.old)
            { conns = slice_set self.old.conns conn.name.slot (Some conn) } }
        ensures entries { AddsOnly who self.old.book self.new.book }
        ensures row { row_in who self.new.book ≡ None }
    {
        let parts = &mut *self.parts;
        rows_change_one_at_a_time();
        conn.show();
        let name = conn.name();
        let _ = parts.book.record_sure(who, Event::Linger(name, cause));
        wait_in_queue(&mut parts.queues, parts.book.state(), name);
        put_back(&mut parts.conns, name, conn);
    }

    /// The connection ended. Takes no memory.
    pub fn close(&mut self, who: u32, ended: Ended<L>)
        requires who { who < self.old.book.passes }
        requires row { row_in who self.old.book ≡ Some ended.name }
        requires allowed { is_allowed self.old.book.state
            (event.Close ended.name ended.cause ended.tail)
            ≡ true }
        requires fits { IsClosing self.old.book.state ended.name ended.cause ended.tail ended }
        requires answered { IsEnded ended }
        requires client { IsOfClient N.known ended.told }
        requires edition { IsOfGeneration N.known self.old.book ended.generation ended.limits
            ended.site }
        ensures is { self.new
            ≡ record (with_recorded who (event.Close ended.name ended.cause ended.tail) self.old)
            { ended = self.old.ended ++ ended ∷ [] } }
        ensures entries { AddsOnly who self.old.book self.new.book }
        ensures row { row_in who self.new.book ≡ None }
    {
        let parts = &mut *self.parts;
        rows_change_one_at_a_time();
        parts.book.show();
        let _ = parts
            .book
            .record_sure(who, Event::Close(ended.name, ended.cause, ended.tail));
        let _ = parts.conns.take(ended.name);
        match parts.ended.push(ended) {
            Ok(()) => (),
            Err(_) => unreachable!(),
        }
    }

    /// Something may have come for the slot.
    pub fn ready(&mut self, who: u32, slot: u32) -> Result<(), BoardFault>
        requires who { who < self.old.book.passes }
        requires listener { who ≡ 0 }
        requires allowed { is_halted self.old.book.state.going ≡ false
            → is_allowed self.old.book.state (event.Ready slot) ≡ true }
        ensures ok { OnOk result (IsAdded who (event.Ready slot) self.old self.new) }
        ensures why { IfErr result (λ fault. IsRefusedFor fault self.old.book) }
        ensures err { OnErr result (self.new ≡ self.old) }
        ensures entries { AddsOnly who self.old.book self.new.book }
        ensures row { row_in who self.new.book ≡ row_in who self.old.book }
    {
        let parts = &mut *self.parts;
        parts.book.record(who, Event::Ready(slot))?;
        Ok(())
    }

    /// Time passes, to the moment.
    pub fn tick(&mut self, who: u32, moment: Moment) -> Result<(), BoardFault>
        requires who { who < self.old.book.passes }
        requires listener { who ≡ 0 }
        requires allowed { is_halted self.old.book.state.going ≡ false
            → is_allowed self.old.book.state (event.Tick moment) ≡ true }
        ensures ok { OnOk result (IsAdded who (event.Tick moment) self.old self.new) }
        ensures why { IfErr result (λ fault. IsRefusedFor fault self.old.book) }
        ensures err { OnErr result (self.new ≡ self.old) }
        ensures entries { AddsOnly who self.old.book self.new.book }
        ensures row { row_in who self.new.book ≡ row_in who self.old.book }
    {
        let parts = &mut *self.parts;
        parts.book.record(who, Event::Tick(moment))?;
        Ok(())
    }

    /// The child starts. Takes the room that letting go of it needs.
    pub fn start_child(&mut self, who: u32, child: u32) -> Result<(), BoardFault>
        requires who { who < self.old.book.passes }
        requires listener { who ≡ 0 }
        requires allowed { is_halted self.old.book.state.going ≡ false
            → is_allowed self.old.book.state (event.StartChild child) ≡ true }
        ensures ok { OnOk result (IsAdded who (event.StartChild child) self.old self.new) }
        ensures why { IfErr result (λ fault. IsRefusedFor fault self.old.book) }
        ensures err { OnErr result (self.new ≡ self.old) }
        ensures entries { AddsOnly who self.old.book self.new.book }
        ensures row { row_in who self.new.book ≡ row_in who self.old.book }
    {
        let parts = &mut *self.parts;
        parts.book.record(who, Event::StartChild(child))?;
        Ok(())
    }

    /// A command from outside: a new generation begins, whose number is the one behind the newest and whose edition has the number of this
    /// order; or the order is recorded as refused; or no connection is taken any more; or the server stops. Takes the room that a new edition needs.
    pub fn command(&mut self, who: u32, command: Commanded) -> Result<(), BoardFault>
        requires who { who < self.old.book.passes }
        requires listener { who ≡ 0 }
        requires allowed { is_halted self.old.book.state.going ≡ false
            → is_allowed self.old.book.state (event.Command command) ≡ true }
        ensures ok { OnOk result (IsAdded who (event.Command command) self.old self.new) }
        ensures why { IfErr result (λ fault. IsRefusedFor fault self.old.book) }
        ensures err { OnErr result (self.new ≡ self.old) }
        ensures entries { AddsOnly who self.old.book self.new.book }
        ensures row { row_in who self.new.book ≡ row_in who self.old.book }
    {
        let parts = &mut *self.parts;
        parts.book.record(who, Event::Command(command))?;
        Ok(())
    }

    /// The server stops, as by the command. Takes no memory.
    pub fn halt(&mut self, who: u32, why: Why)
        requires who { who < self.old.book.passes }
        requires listener { who ≡ 0 }
        requires allowed { is_allowed self.old.book.state (event.Command (Stop why)) ≡ true }
        ensures is { self.new ≡ with_recorded who (event.Command (Stop why)) self.old }
        ensures entries { AddsOnly who self.old.book self.new.book }
        ensures row { row_in who self.new.book ≡ row_in who self.old.book }
    {
        let parts = &mut *self.parts;
        let _ = parts
            .book
            .record_sure(who, Event::Command(Commanded::Stop(why)));
    }

    /// The child is let go of. Takes no memory.
    pub fn retire(&mut self, who: u32, child: u32)
        requires who { who < self.old.book.passes }
        requires listener { who ≡ 0 }
        requires allowed { is_allowed self.old.book.state (event.Retire child) ≡ true }
        ensures is { self.new ≡ with_recorded who (event.Retire child) self.old }
        ensures entries { AddsOnly who self.old.book self.new.book }
        ensures row { row_in who self.new.book ≡ row_in who self.old.book }
    {
        let parts = &mut *self.parts;
        let _ = parts.book.record_sure(who, Event::Retire(child));
    }
}
