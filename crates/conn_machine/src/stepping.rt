//! What each event does, and replies: the event table's effects as a plain program.
//! Why it is so stands in docs/DECISIONS.md: 40, `step` needs no sound state.
ghost use Rattle.std.specs.Prelude.{◌≡◌, ◌≤◌, ◌<◌, true, false, None, length, option_map, slice_get, IsOk, IfOk, OnOk, OnErr};
ghost use Rattle.conn_machine.specs.Rows as rows;
ghost use Rattle.conn_machine.specs.States as states;
ghost use Rattle.conn_machine.specs.Table as table;
ghost use Rattle.conn_machine.specs.Sizes.{HasSizesOf, IsSized};
ghost use Rattle.conn_machine.specs.Sound.{IsSound};
ghost use Rattle.conn_machine.specs.declared.event.Reply.TheVariants.{Done, Cell, Noted};

use crate::event::{Commanded, Event, Reply};
use crate::row::{Phase, Row};
use crate::state::{Going, State, later};
use mpm_base::{Ask, Cause, ConnName, Kind, Moment, NoMemory, Note, Shape};
use std::alloc::Global;

/// What a step replies, and the note of the response that it decided, where it decided one.
#[derive(Drop)]
pub struct Stepped {
    /// The reply.
    pub reply: Reply,
    /// The note.
    pub note: Option<Note>,
}

impl Stepped {
    /// A reply alone.
    fn of(reply: Reply) -> Stepped
        ensures { result ≡ record { reply = reply; note = None } }
    {
        Stepped { reply, note: None }
    }
}

/// Does what the event table says of the event, and gives its reply. Only a response that is the status page
/// takes memory; where it lacks the state stays as it was. The state has at most 8,192 rows and 32 children, and as many
/// signals as rows.
pub fn step(alloc: Global, state: &mut State, event: &Event) -> Result<Reply, NoMemory>
    requires allowed { table.is_allowed state.old event.now ≡ true }
    requires few_rows { length state.old.rows ≤ 8192 }
    requires few_children { length state.old.children ≤ 32 }
    requires signals { length state.old.signals ≡ length state.old.rows }
    ensures state { OnOk result (state.new ≡ table.next state.old event.now) }
    ensures reply { IfOk result (λ answer. answer ≡ table.reply state.old event.now) }
    ensures err { OnErr result (state.new ≡ state.old) }
    ensures sure { table.takes_memory event.now ≡ false → IsOk result }
    ensures sound { IsSound state.old → IsSound state.new }
    ensures sizes { HasSizesOf state.old state.new }
    ensures sized { IsSized state.old → IsSized state.new }
{
    let stepped = step_and_note(alloc, state, event)?;
    Ok(stepped.reply)
}

/// Does the same, and gives the note of the response that was decided too: so one that is the status page is made once.
#[tactic(auto, using(crate::proofs::SoundRuns::sound_step, crate::proofs::SizeLemmas::sizes_step, crate::proofs::SizeLemmas::sizes_same, crate::proofs::SizeLemmas::sized_step))]
pub fn step_and_note(alloc: Global, state: &mut State, event: &Event) -> Result<Stepped, NoMemory>
    requires allowed { table.is_allowed state.old event.now ≡ true }
    requires few_rows { length state.old.rows ≤ 8192 }
    requires few_children { length state.old.children ≤ 32 }
    requires signals { length state.old.signals ≡ length state.old.rows }
    ensures state { OnOk result (state.new ≡ table.next state.old event.now) }
    ensures reply { IfOk result (λ stepped. stepped.reply ≡ table.reply state.old event.now) }
    ensures note { IfOk result (λ stepped. stepped.note ≡ table.note_made state.old event.now) }
    ensures err { OnErr result (state.new ≡ state.old) }
    ensures sure { table.takes_memory event.now ≡ false → IsOk result }
    ensures sound { IsSound state.old → IsSound state.new }
    ensures sizes { HasSizesOf state.old state.new }
    ensures sized { IsSized state.old → IsSized state.new }
{
    match make(alloc, state, event) {
        Ok(stepped) => Ok(stepped),
        Err(NoMemory) => Err(NoMemory),
    }
}

/// What the event does to the state, and what is replied, without what follows of that for states that are sound or sized.
fn make(alloc: Global, state: &mut State, event: &Event) -> Result<Stepped, NoMemory>
    requires allowed { table.is_allowed state.old event.now ≡ true }
    requires few_rows { length state.old.rows ≤ 8192 }
    requires few_children { length state.old.children ≤ 32 }
    requires signals { length state.old.signals ≡ length state.old.rows }
    ensures state { OnOk result (state.new ≡ table.next state.old event.now) }
    ensures reply { IfOk result (λ stepped. stepped.reply ≡ table.reply state.old event.now) }
    ensures note { IfOk result (λ stepped. stepped.note ≡ table.note_made state.old event.now) }
    ensures err { OnErr result (state.new ≡ state.old) }
    ensures sure { table.takes_memory event.now ≡ false → IsOk result }
{
    match *event {
        Event::Accept(slot) => Ok(Stepped::of(accept(state, slot))),
        Event::Park(name, kind) => Ok(Stepped::of(park(state, name, kind))),
        Event::Hold(name) => Ok(Stepped::of(hold(state, name))),
        Event::Queue(name) => Ok(Stepped::of(queue(state, name))),
        Event::Start(name) => Ok(Stepped::of(start(state, name))),
        Event::Answer(name, ask) => answer(alloc, state, name, &ask),
        Event::Linger(name, cause) => Ok(Stepped::of(linger(state, name, cause))),
        Event::Close(name, _, _) => Ok(Stepped::of(close(state, name))),
        Event::Ready(slot) => Ok(Stepped::of(ready(state, slot))),
        Event::Tick(moment) => Ok(Stepped::of(tick(state, moment))),
        Event::StartChild(child) => Ok(Stepped::of(start_child(state, child))),
        Event::Command(ref commanded) => Ok(Stepped::of(command(state, commanded))),
        Event::Retire(child) => Ok(Stepped::of(retire(state, child))),
    }
}

fn accept(state: &mut State, slot: u32) -> Reply
    requires may { table.may_accept state.old slot ≡ true }
    requires few_rows { length state.old.rows ≤ 8192 }
    requires few_children { length state.old.children ≤ 32 }
    requires signals { length state.old.signals ≡ length state.old.rows }
    ensures state { state.new ≡ table.next_accept state.old slot }
    ensures reply { result ≡ table.taken_reply state.old slot }
{
    let Some(child) = state.pick_child() else {
        unreachable!()
    };
    let Some(row) = state.rows.get(slot) else {
        unreachable!()
    };
    let life = row.life;
    let generation = state.children.get(child).generation;
    state.rows.take(slot, state.accepted, child, generation);
    state.signals.set(slot, false);
    state.accepted = state.accepted.saturating_add(1);
    Reply::Took(ConnName { slot, life }, child, generation)
}

/// Since when the row has waited for its request, where it waits for the rest of it from now on.
fn began_at(state: &State, row: &Row) -> Moment
    ensures { result ≡ table.began_at state.now.moment row.now }
{
    row.began.unwrap_or(state.moment)
}

/// Since when the row has waited for its request, where it waits for this from now on.
fn began_after(state: &State, kind: Kind, row: &Row) -> Option<Moment>
    ensures { result ≡ table.began_after state.now.moment kind row.now }
{
    match kind {
        Kind::Reading => Some(began_at(state, row)),
        Kind::KeepAlive | Kind::Writing | Kind::Linger | Kind::ShortLinger => row.began,
    }
}

/// Until when the rest of a request is waited for, which has been waited for since then.
fn read_until(state: &State, shape: &Shape, began: Moment) -> Moment
    ensures { result ≡ table.read_until state.now.moment shape.now began }
{
    let rest = state.later(shape.read_ms);
    if shape.whole_ms == 0 {
        rest
    } else {
        rest.min(later(began, shape.whole_ms))
    }
}

/// When the wait of the row for this is over.
fn wait_until(state: &State, kind: Kind, row: &Row) -> Moment
    ensures { result ≡ table.wait_until state.now kind row.now }
{
    match kind {
        Kind::Reading => {
            let shape = state.child_of(row).shape;
            read_until(state, &shape, began_at(state, row))
        }
        Kind::Writing => state.later(state.child_of(row).shape.read_ms),
        Kind::KeepAlive => state.later(state.child_of(row).shape.keep_ms),
        Kind::Linger | Kind::ShortLinger => row.deadline,
    }
}

#[tactic(auto, using(crate::proofs::ListLemmas::update_as))]
fn park(state: &mut State, name: ConnName, kind: Kind) -> Reply
    requires { table.may_park state.old name kind ≡ true }
    ensures state { state.new ≡ table.next_park state.old name kind }
    ensures reply { result ≡ Done }
{
    let Some(row) = state.rows.live(name) else {
        unreachable!()
    };
    let deadline = wait_until(state, kind, row);
    let began = began_after(state, kind, row);
    state.rows.park(name.slot, kind, deadline, began);
    Reply::Done
}

fn hold(state: &mut State, name: ConnName) -> Reply
    requires may { table.may_hold state.old name ≡ true }
    requires signals { length state.old.signals ≡ length state.old.rows }
    ensures state { state.new ≡ table.next_hold state.old name }
    ensures reply { result ≡ Done }
{
    let Some(row) = state.rows.live(name) else {
        unreachable!()
    };
    let signalled = state.signals.get(name.slot) && !row.is_lingering();
    state.rows.hold(name.slot);
    state.signals.set(name.slot, signalled);
    Reply::Done
}

fn queue(state: &mut State, name: ConnName) -> Reply
    requires may { table.may_queue state.old name ≡ true }
    requires signals { length state.old.signals ≡ length state.old.rows }
    ensures state { state.new ≡ table.next_queue state.old name }
    ensures reply { result ≡ Done }
{
    let Some(_) = state.rows.live(name) else {
        unreachable!()
    };
    state.rows.queue(name.slot);
    state.signals.set(name.slot, false);
    Reply::Done
}

/// What a worker that is given the row does first.
fn phase_at_start(row: &Row) -> Phase
    ensures { result ≡ table.phase_at_start row.now }
{
    if row.is_from(Kind::Writing) && row.mid {
        if row.last { Phase::Close } else { Phase::Write }
    } else {
        Phase::Read
    }
}

#[tactic(auto, using(crate::proofs::ListLemmas::update_as))]
fn start(state: &mut State, name: ConnName) -> Reply
    requires { table.may_start state.old name ≡ true }
    ensures state { state.new ≡ table.next_start state.old name }
    ensures reply { result ≡ Cell (table.cell_at state.old name.slot) }
{
    let Some(row) = state.rows.live(name) else {
        unreachable!()
    };
    let threads = state.child_of(row).shape.threads;
    let cell = state.rows.lowest_free_cell(row.child, threads);
    let phase = phase_at_start(row);
    state.rows.start(name.slot, cell, phase);
    Reply::Cell(cell)
}

/// Whether the response is the last one of the row's connection.
pub(crate) fn is_last_for(state: &State, ask: &Ask, row: &Row) -> bool
    ensures { result ≡ table.is_last_for state.now ask.now row.now }
{
    let child = state.child_of(row);
    ask.asked_close
        || ask.refused
        || row.notes.count() as u64 + 1 == child.shape.most as u64
        || !child.shape.keep
        || !child.phase.is_running()
}

#[tactic(auto, using(crate::proofs::ListLemmas::update_as))]
fn answer(alloc: Global, state: &mut State, name: ConnName, ask: &Ask) -> Result<Stepped, NoMemory>
    requires may { table.may_answer state.old name ≡ true }
    requires few_rows { length state.old.rows ≤ 8192 }
    requires few_children { length state.old.children ≤ 32 }
    ensures state { OnOk result (state.new ≡ table.next_answer state.old name ask.now) }
    ensures reply { IfOk result
        (λ stepped. stepped.reply ≡ Noted (table.noted_at state.old name.slot ask.now)) }
    ensures note { IfOk result (λ stepped. stepped.note
        ≡ option_map (table.note_for state.old name.slot ask.now)
        (slice_get state.old.rows name.slot)) }
    ensures err { OnErr result (state.new ≡ state.old) }
    ensures sure { ask.now.page ≡ false → IsOk result }
{
    let Some(_) = state.rows.live(name) else {
        unreachable!()
    };
    let note = state.note_for(alloc, name, ask)?;
    state.rows.answer(name.slot, &note, ask.refused);
    Ok(Stepped {
        reply: Reply::Noted(note.last),
        note: Some(note),
    })
}

#[tactic(auto, using(crate::proofs::ListLemmas::update_as))]
fn linger(state: &mut State, name: ConnName, cause: Cause) -> Reply
    requires may { table.may_linger state.old name cause ≡ true }
    requires signals { length state.old.signals ≡ length state.old.rows }
    ensures state { state.new ≡ table.next_linger state.old name cause }
    ensures reply { result ≡ Done }
{
    let Some(row) = state.rows.live(name) else {
        unreachable!()
    };
    let (kind, ms) = if row.short {
        (Kind::ShortLinger, 2_000)
    } else {
        (Kind::Linger, 30_000)
    };
    let deadline = state.later(ms);
    state.rows.linger(name.slot, kind, deadline, cause);
    state.signals.set(name.slot, true);
    Reply::Done
}

fn close(state: &mut State, name: ConnName) -> Reply
    requires live { rows.lives_and (λ r. true) state.old.rows name ≡ true }
    requires signals { length state.old.signals ≡ length state.old.rows }
    ensures state { state.new ≡ table.next_close state.old name }
    ensures reply { result ≡ Done }
{
    let Some(_) = state.rows.live(name) else {
        unreachable!()
    };
    state.rows.close(name.slot);
    state.signals.set(name.slot, false);
    Reply::Done
}

fn ready(state: &mut State, slot: u32) -> Reply
    requires { slot < length state.old.signals }
    ensures state { state.new ≡ table.next_ready state.old slot }
    ensures reply { result ≡ Done }
{
    state.signals.set(slot, true);
    Reply::Done
}

fn tick(state: &mut State, moment: Moment) -> Reply
    ensures state { state.new ≡ table.next_tick state.old moment }
    ensures reply { result ≡ Done }
{
    state.moment = moment;
    Reply::Done
}

fn start_child(state: &mut State, child: u32) -> Reply
    requires { child < length state.old.children }
    ensures state { state.new ≡ table.next_start_child state.old child }
    ensures reply { result ≡ Done }
{
    state.children.start(child, state.newest, state.shape);
    Reply::Done
}

fn command(state: &mut State, commanded: &Commanded) -> Reply
    requires { table.may_command state.old commanded.now ≡ true }
    ensures state { state.new ≡ table.next_command state.old commanded.now }
    ensures reply { result ≡ Done }
{
    match *commanded {
        Commanded::Graceful(ref shape) => {
            state.newest += 1;
            state.shape = *shape.shape();
            state.children.stop_all();
        }
        Commanded::Refused(_) => (),
        Commanded::GracefulStop(until) => {
            state.going = Going::Ending(until);
            state.children.stop_all();
        }
        Commanded::Stop(why) => {
            state.going = Going::Halted(why);
            state.children.stop_all();
        }
    }
    Reply::Done
}

fn retire(state: &mut State, child: u32) -> Reply
    requires { child < length state.old.children }
    ensures state { state.new ≡ table.next_retire state.old child }
    ensures reply { result ≡ Done }
{
    state.children.retire(child);
    Reply::Done
}
