//! Which events a state allows: the event table's conditions as a plain program.
ghost use Rattle.std.specs.Prelude.{◌≡◌, ◌≤◌, length};
ghost use Rattle.conn_machine.specs.Table as table;
ghost use Rattle.mpm_base.specs.Shape as bounds;

use crate::event::{Commanded, Event, Why};
use crate::row::Row;
use crate::state::State;
use mpm_base::{Cause, ConnName, GREATEST_MOMENT, Kind, Moment, Shape, Tail};

/// Whether the number lies between the two, or is one of them.
fn is_within(low: u64, high: u64, n: u64) -> bool
    ensures { result ≡ bounds.is_between low high n }
{
    low <= n && n <= high
}

/// Whether a configuration may give these numbers.
pub fn is_in_bounds(shape: &Shape) -> bool
    ensures { result ≡ bounds.is_in_bounds shape.now }
{
    is_within(1, 64, shape.threads as u64)
        && is_within(1, 10_000, shape.factor as u64)
        && is_within(1_000, 65_535_000, shape.read_ms)
        && is_within(1, 65_535_000, shape.keep_ms)
        && is_within(1, 65_535, shape.most as u64)
        && is_within(1, 32, shape.children as u64)
        && is_within(1, shape.children as u64, shape.target as u64)
        && shape.whole_ms <= 65_535_000
}

/// Whether the state allows the event. The state has at most 8,192 rows and 32 children.
pub fn may(state: &State, event: &Event) -> bool
    requires few_rows { length state.now.rows ≤ 8192 }
    requires few_children { length state.now.children ≤ 32 }
    ensures { result ≡ table.is_allowed state.now event.now }
{
    match *event {
        Event::Accept(slot) => state.may_accept(slot),
        Event::Park(name, kind) => state.may_park(name, kind),
        Event::Hold(name) => state.may_hold(name),
        Event::Queue(name) => state.may_queue(name),
        Event::Start(name) => state.may_start(name),
        Event::Answer(name, _) => state.may_answer(name),
        Event::Linger(name, cause) => state.may_linger(name, cause),
        Event::Close(name, cause, tail) => state.may_close(name, cause, tail),
        Event::Ready(slot) => state.may_ready(slot),
        Event::Tick(moment) => state.may_tick(moment),
        Event::StartChild(child) => state.may_start_child(child),
        Event::Command(ref commanded) => state.may_command(commanded),
        Event::Retire(child) => state.may_retire(child),
    }
}

impl State {
    fn may_accept(&self, slot: u32) -> bool
        requires few_rows { length self.now.rows ≤ 8192 }
        requires few_children { length self.now.children ≤ 32 }
        ensures { result ≡ table.may_accept self.now slot }
    {
        self.going.is_serving() && self.is_vacant(slot) && self.pick_child().is_some()
    }

    /// Whether the slot exists and is vacant.
    pub fn is_vacant(&self, slot: u32) -> bool
        ensures { result ≡ table.is_vacant_at self.now slot }
    {
        match self.rows.get(slot) {
            Some(row) => row.place.is_vacant(),
            None => false,
        }
    }

    fn may_park(&self, name: ConnName, kind: Kind) -> bool
        ensures { result ≡ table.may_park self.now name kind }
    {
        !self.going.is_halted()
            && match self.rows.live(name) {
                Some(row) => self.may_wait(kind, row),
                None => false,
            }
    }

    /// Whether the row may wait for this.
    fn may_wait(&self, kind: Kind, row: &Row) -> bool
        ensures { result ≡ table.may_wait self.now.moment kind row.now }
    {
        match kind {
            Kind::Reading => {
                (row.place.is_held() && row.from.is_none()) || (row.place.is_working() && !row.last)
            }
            Kind::KeepAlive => row.place.is_working() && !row.last && row.has_note(),
            Kind::Writing => row.place.is_working(),
            Kind::Linger | Kind::ShortLinger => {
                row.place.is_held()
                    && row.is_lingering()
                    && row.is_from(kind)
                    && self.moment < row.deadline
            }
        }
    }

    fn may_hold(&self, name: ConnName) -> bool
        ensures { result ≡ table.may_hold self.now name }
    {
        match self.rows.live(name) {
            Some(row) => self.may_be_held(self.signals.get(name.slot), row),
            None => false,
        }
    }

    /// Whether the listener may take the row, whose signal is this one.
    fn may_be_held(&self, signalled: bool, row: &Row) -> bool
        ensures { result ≡ table.may_be_held self.now signalled row.now }
    {
        row.place.is_parked()
            && (row.deadline <= self.moment
                || (row.is_from(Kind::KeepAlive)
                    && self.child_of(row).phase.is_stopping()
                    && !signalled)
                || (row.is_lingering() && signalled)
                || self.going.is_halted())
    }

    fn may_queue(&self, name: ConnName) -> bool
        requires { length self.now.rows ≤ 8192 }
        ensures { result ≡ table.may_queue self.now name }
    {
        !self.going.is_halted()
            && self.signals.get(name.slot)
            && match self.rows.live(name) {
                Some(row) => self.may_be_queued(row),
                None => false,
            }
    }

    /// Whether the row may be handed to the workers of its child, but for its signal.
    pub fn may_be_queued(&self, row: &Row) -> bool
        requires { length self.now.rows ≤ 8192 }
        ensures { result ≡ table.may_be_queued self.now row.now }
    {
        row.place.is_parked()
            && !row.is_lingering()
            && (self.rows.carried(row.child) as u32) < self.child_of(row).shape.threads
    }

    fn may_start(&self, name: ConnName) -> bool
        ensures { result ≡ table.may_start self.now name }
    {
        match self.rows.live(name) {
            Some(row) => row.place.is_queued(),
            None => false,
        }
    }

    fn may_answer(&self, name: ConnName) -> bool
        ensures { result ≡ table.may_answer self.now name }
    {
        !self.going.is_halted()
            && match self.rows.live(name) {
                Some(row) => row.place.is_working() && !row.last,
                None => false,
            }
    }

    fn may_linger(&self, name: ConnName, cause: Cause) -> bool
        ensures { result ≡ table.may_linger self.now name cause }
    {
        match self.rows.live(name) {
            Some(row) => {
                !row.is_lingering()
                    && self.linger_cause_fits(cause, self.signals.get(name.slot), row)
            }
            None => false,
        }
    }

    /// Whether the row, whose signal is this one, lingers for the cause.
    fn linger_cause_fits(&self, cause: Cause, signalled: bool, row: &Row) -> bool
        ensures { result ≡ table.linger_cause_fits self.now cause signalled row.now }
    {
        match cause {
            Cause::LastSent => row.place.is_working() && row.last,
            Cause::KeepAliveLate => self.is_late_as(Kind::KeepAlive, row),
            Cause::ReadLate => self.is_late_as(Kind::Reading, row),
            Cause::WriteLate => self.is_late_as(Kind::Writing, row),
            Cause::Retiring => {
                row.place.is_held()
                    && row.is_from(Kind::KeepAlive)
                    && self.child_of(row).phase.is_stopping()
                    && !signalled
            }
            Cause::ClientDone | Cause::LinkFailed | Cause::Stopped | Cause::NoMemory => false,
        }
    }

    /// Whether the listener holds the row, which waited for this until now.
    fn is_late_as(&self, kind: Kind, row: &Row) -> bool
        ensures { result ≡ table.is_late_as self.now kind row.now }
    {
        row.place.is_held() && row.is_from(kind) && row.deadline <= self.moment
    }

    fn may_close(&self, name: ConnName, cause: Cause, tail: Tail) -> bool
        ensures { result ≡ table.may_close self.now name cause tail }
    {
        match self.rows.live(name) {
            Some(row) => {
                (row.place.is_held() || row.place.is_working()) && self.end_fits(cause, tail, row)
            }
            None => false,
        }
    }

    /// Whether the row may be closed for the cause, with its link left so.
    fn end_fits(&self, cause: Cause, tail: Tail, row: &Row) -> bool
        ensures { result ≡ table.end_fits self.now cause tail row.now }
    {
        match row.cause {
            Some(own) => own.number() == cause.number() && self.linger_tail_fits(tail, row),
            None => matches!(tail, Tail::Direct) && self.direct_cause_fits(cause, row),
        }
    }

    /// Whether the link of the lingering row may be left so.
    fn linger_tail_fits(&self, tail: Tail, row: &Row) -> bool
        ensures { result ≡ table.linger_tail_fits self.now tail row.now }
    {
        match tail {
            Tail::Direct => false,
            Tail::Drained | Tail::Sated | Tail::Failed | Tail::NoMemory => true,
            Tail::Late => row.deadline <= self.moment,
            Tail::Halted => self.going.is_halted(),
        }
    }

    /// Whether the row may be closed for the cause without a linger.
    fn direct_cause_fits(&self, cause: Cause, row: &Row) -> bool
        ensures { result ≡ table.direct_cause_fits self.now cause row.now }
    {
        match cause {
            Cause::ClientDone => row.place.is_working() && !row.last,
            Cause::LinkFailed | Cause::NoMemory => true,
            Cause::Stopped => self.going.is_halted(),
            Cause::LastSent
            | Cause::KeepAliveLate
            | Cause::ReadLate
            | Cause::WriteLate
            | Cause::Retiring => false,
        }
    }

    fn may_ready(&self, slot: u32) -> bool
        ensures { result ≡ table.may_ready self.now slot }
    {
        !self.going.is_halted() && (slot as usize) < self.rows.len()
    }

    fn may_tick(&self, moment: Moment) -> bool
        ensures { result ≡ table.may_tick self.now moment }
    {
        !self.going.is_halted()
            && self.moment < moment
            && moment <= GREATEST_MOMENT
            && !self.has_overdue()
    }

    fn may_start_child(&self, child: u32) -> bool
        requires { length self.now.children ≤ 32 }
        ensures { result ≡ table.may_start_child self.now child }
    {
        self.going.is_serving()
            && match self.children.find(child) {
                Some(child) => child.phase.is_empty(),
                None => false,
            }
            && (self.children.running() as u32) < self.shape.children
    }

    fn may_retire(&self, child: u32) -> bool
        ensures { result ≡ table.may_retire self.now child }
    {
        match self.children.find(child) {
            Some(found) => found.phase.is_stopping() && !self.has_live_in(child),
            None => false,
        }
    }

    fn may_command(&self, commanded: &Commanded) -> bool
        ensures { result ≡ table.may_command self.now commanded.now }
    {
        !self.going.is_halted()
            && match *commanded {
                Commanded::Graceful(ref shape) => {
                    self.going.is_serving() && self.newest < u32::MAX && is_in_bounds(shape.shape())
                }
                Commanded::Refused(_) => true,
                Commanded::GracefulStop(until) => {
                    self.going.is_serving() && self.is_not_past(until)
                }
                Commanded::Stop(why) => self.stop_fits(why),
            }
    }

    /// Whether the moment, where there is one, isn't before the present one.
    fn is_not_past(&self, until: Option<Moment>) -> bool
        ensures { result ≡ table.is_not_past self.now.moment until }
    {
        match until {
            Some(until) => self.moment <= until,
            None => true,
        }
    }

    /// Whether a stop may come for this reason.
    fn stop_fits(&self, why: Why) -> bool
        ensures { result ≡ table.stop_fits self.now why }
    {
        match why {
            Why::Overdue => self.going.is_over(self.moment),
            Why::FrontEnded => !self.has_live(),
            Why::Asked | Why::FrontFailed | Why::NoMemory => true,
        }
    }
}
