//! A connection that ended.
use crate::kept_notes::KeptNotes;
use crate::turn::{LastLinger, LastTurn};
use file_table::Site;
use http_read::Limits;
use mpm_base::{Cause, ConnName, Link, Tail};
use std::marker::Model;
use std::snapshot::Snapshot;

/// A connection that ended.
#[derive(Drop)]
pub struct Ended<L: Link> {
    /// Its name.
    pub name: ConnName,
    /// The number of its child.
    pub child: u32,
    /// The generation of its child.
    pub generation: u32,
    /// Its responses.
    pub notes: KeptNotes,
    /// Why its service ended.
    pub cause: Cause,
    /// How its link was left.
    pub tail: Tail,
    /// Its link, which is closed.
    pub link: L,
    // The site of its generation, the limits of its heads, what its last turn answered, and how far it was on its way out, which only
    // contracts see.
    pub(crate) site: Snapshot<Site>,
    pub(crate) limits: Snapshot<Limits>,
    pub(crate) turn: Snapshot<LastTurn>,
    pub(crate) linger: Snapshot<LastLinger>,
}

impl<L: Link> Model for Ended<L> {
    ghost use Rattle.conn_state.specs.Answered.{SeenEnded};

    ghost Value = { SeenEnded };

    ghost view = { λ e. record {
      told = (L.seen e.link).told;
      counts = (L.seen e.link).counts;
      name = e.name;
      child = e.child;
      generation = e.generation;
      site = e.site.value;
      limits = e.limits.value;
      notes = e.notes;
      cause = e.cause;
      tail = e.tail;
      turn = e.turn.value;
      linger = e.linger.value;
    } };
}
