//! The board's tests of its state: none takes memory, and each is exact.
//! Why it is so stands in docs/DECISIONS.md: 45, Which one of several.
ghost use Rattle.std.specs.Prelude.{◌≡◌, ◌<◌, length, IfSome};
ghost use Rattle.conn_machine.specs.Children.{child_at};
ghost use Rattle.board_book.specs.Finds.{FindsRetirable, FindsRow, IsFirstDue, acceptable, cause_of, has_to_be_drained, is_due, is_due_of, is_late, is_let_go, is_quiet, is_waiting, next_deadline_of, startable, waits_for};

use crate::board::Board;
use board_book::{can_accept, can_retire, can_start, kind, least_with_ending};
use conn_machine::{Child, Going};
use conn_state::Known;
use mpm_base::{Cause, ConnName, GREATEST_MOMENT, Kind, Link, Moment};

impl<L: Link, N: Known> Board<L, N> {
    /// The child that the next connection goes to, while the server takes connections and a slot is vacant.
    pub fn can_accept(&self) -> Option<u32>
        ensures { result ≡ acceptable self.now.book.state }
    {
        self.parts.book.show();
        can_accept(self.parts.book.state())
    }

    /// The lowest child that is gone, while the server takes connections and fewer children run than should.
    pub fn can_start(&self) -> Option<u32>
        ensures { result ≡ startable self.now.book.state }
    {
        self.parts.book.show();
        can_start(self.parts.book.state())
    }

    /// A child that may be let go of.
    pub fn can_retire(&self) -> Option<u32>
        ensures { FindsRetirable self.now.book.state result }
    {
        self.parts.book.show();
        can_retire(self.parts.book.state())
    }

    /// A connection that waits and is late; of those that wait none has an earlier deadline.
    pub fn overdue(&self) -> Option<ConnName>
        ensures late { FindsRow (is_late self.now.book.state) self.now.book.state result }
        ensures first { IfSome result (IsFirstDue self.now.book.state) }
    {
        let parts = &*self.parts;
        parts.queues.overdue(parts.book.state().moment)
    }

    /// A connection that waits for service, for which something may have come and a worker of its child is free.
    pub fn signalled(&self) -> Option<ConnName>
        ensures { FindsRow (is_due self.now.book.state) self.now.book.state result }
    {
        self.parts.book.show();
        self.parts.book.filed().signalled()
    }

    /// A connection of the child that waits for service, for which something may have come, whether a worker is free or not.
    pub fn signalled_of(&self, child: u32) -> Option<ConnName>
        requires { child < length self.now.book.state.children }
        ensures { FindsRow (is_due_of child self.now.book.state) self.now.book.state result }
    {
        self.parts.book.show();
        self.parts.book.filed().signalled_of(child)
    }

    /// A connection that waits for a further request, for which nothing came, of a child that stops.
    pub fn retiring(&self) -> Option<ConnName>
        ensures { FindsRow (is_let_go self.now.book.state) self.now.book.state result }
    {
        self.parts.book.show();
        self.parts.book.filed().retiring()
    }

    /// A connection that lingers, for which something may have come.
    pub fn signalled_linger(&self) -> Option<ConnName>
        ensures { FindsRow (has_to_be_drained self.now.book.state) self.now.book.state result }
    {
        self.parts.book.filed().signalled_linger()
    }

    /// A connection that waits; none that waits has an earlier deadline.
    pub fn parked(&self) -> Option<ConnName>
        ensures { FindsRow is_waiting self.now.book.state result }
    {
        let parts = &*self.parts;
        parts.book.show();
        parts.queues.overdue(GREATEST_MOMENT)
    }

    /// What the connection of that name waits for, where it lives and waits.
    pub fn kind(&self, name: ConnName) -> Option<Kind>
        ensures { result ≡ waits_for self.now.book.state name }
    {
        kind(self.parts.book.state(), name)
    }

    /// Why the service of the connection of that name ended, where it lives and lingers.
    pub fn cause(&self, name: ConnName) -> Option<Cause>
        ensures { result ≡ cause_of self.now.book.state name }
    {
        self.parts.book.state().rows.live(name)?.cause
    }

    /// The least deadline of a connection that waits; the moment at which the server stops counts too.
    pub fn next_deadline(&self) -> Option<Moment>
        ensures { result ≡ next_deadline_of self.now.book.state }
    {
        let parts = &*self.parts;
        least_with_ending(parts.queues.next_deadline(), parts.book.state().going)
    }

    /// The child of that number; one that was never started where there is none.
    pub fn child(&self, child: u32) -> Child
        ensures { result ≡ child_at self.now.book.state.children child }
    {
        self.parts.book.state().children.get(child)
    }

    /// Whether no connection is in hand: queued, served or held.
    pub fn quiet(&self) -> bool
        ensures { result ≡ is_quiet self.now.book.state }
    {
        !self.parts.book.state().rows.has_in_hand()
    }

    /// Whether the server takes connections, ends, or has stopped.
    pub fn going(&self) -> Going
        ensures { result ≡ self.now.book.state.going }
    {
        self.parts.book.state().going
    }

    /// The present moment.
    pub fn moment(&self) -> Moment
        ensures { result ≡ self.now.book.state.moment }
    {
        self.parts.book.state().moment
    }
}
