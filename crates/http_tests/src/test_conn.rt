//! A connection each of whose turns is made only where it may be.
ghost use Rattle.std.specs.Prelude.{◌≡◌, true, IfSome};
ghost use Rattle.conn_state.specs.Conn.{IsFresh};
ghost use Rattle.conn_state.specs.Conn as spec;
ghost use Rattle.conn_state.specs.declared.turn.LastLinger.TheVariants as linger;

use crate::heads::LIMITS;
use crate::leaving::may_end;
use crate::pages::page_where;
use crate::turn_answers::{is_usable, left_by_drop, left_by_read, left_by_write, lingers};
use conn_state::{Conn, Ended, LastLinger, LastTurn, LingerTurn, Nothing, ReadTurn, WriteTurn};
use file_table::Site;
use mpm_base::{Ask, Cause, ConnName, Link, NoMemory, Note, Tail};
use std::alloc::Global;
use std::marker::Model;
use std::sync::Arc;
use test_rows::Sheet;

/// The name of each connection.
const NAME: ConnName = ConnName { slot: 3, life: 1 };

/// Behind the last second of the year 9999.
const SECONDS: u64 = 253_402_300_800;

/// More turns than a text takes.
const TURNS: u64 = 100;

/// A connection, and what its last turns answered.
#[derive(Drop)]
pub struct TestConn<L: Link> {
    alloc: Global,
    conn: Conn<L, Nothing>,
    turn: LastTurn,
    linger: LastLinger,
}

impl<L: Link> Model for TestConn<L> {
    ghost use Rattle.std.specs.Prelude.{◌≡◌};
    ghost use Rattle.conn_state.specs.Conn.{SeenConn};

    ghost Value = { SeenConn };

    ghost view = { λ c. c.conn };

    ghost invariant = { λ c. (c.conn.turn ≡ c.turn) × (c.conn.linger ≡ c.linger) };
}

impl<L: Link> TestConn<L> {
    /// A new connection over a link of which nothing was read.
    pub fn new(alloc: Global, site: Arc<Site>, link: L) -> TestConn<L>
        requires fresh { IfSome (L.seen link).told IsFresh }
    {
        TestConn {
            alloc,
            conn: Conn::new(alloc, NAME, 2, 5, LIMITS, site, link),
            turn: LastTurn::New,
            linger: LastLinger::Open,
        }
    }

    /// What its last turn answered.
    pub fn turn(&self) -> LastTurn {
        self.turn
    }

    /// How far it is on its way out.
    pub fn linger(&self) -> LastLinger {
        self.linger
    }

    /// Shows what it says of itself.
    pub fn show(&self, sheet: &mut Sheet) {
        let conn = &self.conn;
        println!(sheet;
            "show => {:?}, child {}, pending {}, noted {}, rest empty {}, last {}",
            conn.name(),
            conn.child(),
            conn.pending(),
            conn.noted(),
            conn.rest_empty(),
            conn.last()
        );
    }

    /// Whether nothing failed, and its link was not half-closed.
    fn is_open(&self) -> bool
        ensures usable { result ≡ true → spec.is_usable self.now.turn ≡ true }
        ensures not_shut { result ≡ true → self.now.linger ≡ linger.Open }
    {
        is_usable(self.turn) && matches!(self.linger, LastLinger::Open)
    }

    /// Makes a turn of reading. False where none may be made.
    pub fn read(&mut self) -> bool {
        if !self.is_open() || self.conn.pending() || self.conn.last() {
            return false;
        }
        self.turn = left_by_read(self.conn.read_turn());
        true
    }

    /// Answers what was asked, at the second, and for the last time where it is to be or has to be. False where nothing may be
    /// answered, or memory lacks for a status page.
    pub fn answer(&mut self, second: u64, last: bool) -> bool {
        let LastTurn::Asked(ask) = self.turn else {
            return false;
        };
        if second >= SECONDS || !self.is_open() {
            return false;
        }
        let Ok(page) = page_where(self.alloc, ask.page) else {
            return false;
        };
        let asked_close = ask.asked_close || ask.refused;
        let note = Note {
            date: second,
            asked_close,
            last: last || asked_close,
            code: ask.code,
            page,
        };
        self.turn = match self.conn.answer(note) {
            Ok(()) => LastTurn::Answered,
            Err(NoMemory) => LastTurn::NoMemory,
        };
        true
    }

    /// Makes a turn of writing. False where none may be made.
    pub fn write(&mut self) -> bool {
        if !self.is_open() {
            return false;
        }
        self.turn = left_by_write(self.conn.write_turn());
        true
    }

    /// Half-closes the link. False where it may not be.
    pub fn shut(&mut self) -> bool {
        if !self.is_open() {
            return false;
        }
        self.linger = if self.conn.shut() {
            LastLinger::Shut
        } else {
            LastLinger::ShutFailed
        };
        true
    }

    /// Makes a turn of lingering. False where none may be made.
    pub fn drop_rest(&mut self) -> bool {
        if !lingers(self.linger) {
            return false;
        }
        self.linger = left_by_drop(self.conn.linger_turn());
        true
    }

    /// Makes the turns that may be made, until something failed, the client sends no more or nothing comes at this moment, or the last
    /// response was sent. What is asked is answered at the second. False where too many turns may be made.
    pub fn talk(&mut self, second: u64) -> bool {
        if matches!(self.turn, LastTurn::More) {
            let _ = self.read();
        }
        for _ in 0..TURNS {
            if !self.step(second) {
                return true;
            }
        }
        false
    }

    /// Sends what is pending, or else answers what was asked, or else reads. Whether another turn may follow.
    fn step(&mut self, second: u64) -> bool {
        let made = match self.turn {
            LastTurn::Asked(_) => self.answer(second, false),
            LastTurn::Interim | LastTurn::Answered | LastTurn::NotReady => self.write(),
            LastTurn::New | LastTurn::Done => self.read(),
            _ => false,
        };
        made && !(self.conn.last() && !self.conn.pending())
    }

    /// Ends it for the cause, its link left so. None where that may not be.
    pub fn end(self, cause: Cause, tail: Tail) -> Option<Ended<L>> {
        if may_end(&self.conn, self.turn, self.linger, cause, tail) {
            Some(self.conn.end(cause, tail))
        } else {
            None
        }
    }
}
