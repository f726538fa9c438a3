//! A client of a script, as the front of the script knows it.
ghost use Rattle.std.specs.Prelude.{◌≡◌, ◌<◌, ◌≤◌, ◌&&◌, not, true, false, List, Option, [], length, map, take, IfSome, IfNone};
ghost use Rattle.mpm_base.specs.declared.script_line.ScriptLine.TheVariants as said;
ghost use Rattle.mpm_base.specs.declared.conn.ConnName.{ConnName as Name};
ghost use Rattle.script_front.specs.DuePlacesInside.{AllLook, AreMarked, Covers};
ghost use Rattle.script_front.specs.PlayedPartsInside.{is_of_client};
ghost use Rattle.script_front.specs.Signals.{Gives, LooksAt, after_act, client_after_line, client_after_lines, all_closed, new_client, without_signal, watched_client};

use crate::due_places::DuePlaces;
use mpm_base::{ClientAct, ConnName, Octets, Ready, ScriptLine};
use mpm_script::NameChains;
use stand_ins::Wire;
use std::marker::Model;
use std::sync::Arc;

/// A client of a script: its name, what the front shares with its link, whether a byte of it has come, whether it sends no
/// more, whether a signal is due for its link, and whether that was found closed.
#[derive(Drop)]
pub(crate) struct ScriptClient {
    name: Octets,
    wire: Arc<Wire>,
    came: bool,
    ended: bool,
    due: bool,
    closed: bool,
}

impl Model for ScriptClient {
    ghost use Rattle.script_front.specs.Signals.{SeenClient};

    ghost Value = { SeenClient };

    ghost view = { λ c.
        record { name = c.name; came = c.came; ended = c.ended; due = c.due; closed = c.closed } };
}

impl ScriptClient {
    /// A client of which nothing came yet.
    pub(crate) fn make(name: Octets, wire: Arc<Wire>) -> ScriptClient
        ensures { result ≡ new_client name }
    {
        ScriptClient {
            name,
            wire,
            came: false,
            ended: false,
            due: false,
            closed: false,
        }
    }

    /// Looks whether its link was closed. Once it was found so it stays so.
    fn look(&mut self)
        ensures { LooksAt self.old self.new }
    {
        self.closed = self.closed || self.wire.closed();
    }

    /// The act happens. What a client sends behind its end does nothing, and neither does a second end.
    fn act(&mut self, act: &ClientAct)
        ensures { self.new ≡ after_act act.now self.old }
    {
        match act {
            ClientAct::Send(bytes) => {
                if !self.ended {
                    self.wire.bring(bytes.len() as u64);
                    self.came = self.came || !bytes.is_empty();
                    self.due = true;
                }
            }
            ClientAct::End => {
                if !self.ended {
                    self.wire.end();
                    self.ended = true;
                    self.due = true;
                }
            }
            ClientAct::Room(room) => {
                self.wire.allow(*room);
                self.due = true;
            }
            ClientAct::Drop => {
                self.wire.drop_link();
                self.due = true;
            }
            ClientAct::Fail(call, _) => self.wire.fail(*call),
        }
    }

    /// From now on its link is watched: a signal is due where bytes came before, or the end has.
    pub(crate) fn watch(&mut self)
        ensures { self.new ≡ watched_client self.old }
    {
        self.due = self.came || self.ended;
    }

    /// Whether a signal is given now: one that is due, unless the link was found closed. It is due no more.
    fn take_signal(&mut self) -> bool
        ensures is { result ≡ (self.old.due && not self.old.closed) }
        ensures state { self.new ≡ without_signal self.old }
    {
        let given = self.due && !self.closed;
        self.due = false;
        given
    }
}

/// These lines happen to each of the clients, which have these names.
pub(crate) fn happen(
    chains: &NameChains,
    lines: &[ScriptLine],
    due: &mut DuePlaces,
    clients: &mut [ScriptClient],
)
    requires named { map (λ client. client.name) clients.old ≡ chains.now }
    requires each { length due.old.marks.items ≡ length clients.old }
    requires marked { AreMarked due.old }
    ensures clients { clients.new ≡ map (client_after_lines lines.now) clients.old }
    ensures each { length due.new.marks.items ≡ length due.old.marks.items }
    ensures marked { AreMarked due.new }
    ensures covers { (watched : List (Option Name)) →
        Covers due.old.marks.items clients.old watched →
        Covers due.new.marks.items clients.new watched }
{
    for line in lines {
        if let Some((name, act)) = act_in(line) {
            act_on(chains, name, act, due, clients);
        }
    }
}

/// The name of the clients on which the line acts, and what it does to them.
pub(crate) fn act_in(line: &ScriptLine) -> Option<(&[u8], &ClientAct)>
    ensures some { IfSome result (λ acts. line.now ≡ said.Client acts.0.now acts.1.now) }
    ensures none { IfNone result (is_of_client line.now ≡ false) }
{
    match line {
        ScriptLine::Client(name, act) => Some((name.as_slice(), act)),
        _ => None,
    }
}

/// The act happens to each client of that name.
fn act_on(
    chains: &NameChains,
    name: &[u8],
    act: &ClientAct,
    due: &mut DuePlaces,
    clients: &mut [ScriptClient],
)
    requires named { map (λ client. client.name) clients.old ≡ chains.now }
    requires each { length due.old.marks.items ≡ length clients.old }
    requires marked { AreMarked due.old }
    ensures clients { clients.new
        ≡ map (client_after_line (said.Client name.now act.now)) clients.old }
    ensures each { length due.new.marks.items ≡ length due.old.marks.items }
    ensures marked { AreMarked due.new }
    ensures covers { (watched : List (Option Name)) →
        Covers due.old.marks.items clients.old watched →
        Covers due.new.marks.items clients.new watched }
{
    let mut next = chains.last(name);
    'places: while let Some(place) = next {
        clients[place].act(act);
        due.add(place);
        next = chains.earlier(place);
    }
}

/// Gives the slots of those watched links for which a signal is due and which weren't closed, as far as there is room; the others
/// stay due.
pub(crate) fn give(
    due: &mut DuePlaces,
    clients: &mut [ScriptClient],
    watched: &[Option<ConnName>],
    ready: &mut Ready,
)
    requires each { length clients.old ≡ length watched.now }
    requires marks { length due.old.marks.items ≡ length clients.old }
    requires none { ready.old ≡ [] }
    requires marked { AreMarked due.old }
    requires covers { Covers due.old.marks.items clients.old watched.now }
    ensures gives { Gives 256 clients.old watched.now clients.new ready.new }
    ensures marks { length due.new.marks.items ≡ length due.old.marks.items }
    ensures marked { AreMarked due.new }
    ensures covers { Covers due.new.marks.items clients.new watched.now }
{
    'places: while !ready.is_full() {
        let Some(place) = due.take() else {
            return;
        };
        let client = &mut clients[place];
        client.look();
        if let Some(name) = &watched[place] {
            if client.take_signal() {
                ready.add(name.slot);
            }
        }
    }
}

/// How many of the first so many links were found closed, one behind the other, of which that many were before. It looks at
/// each behind them, up to one that isn't closed.
pub(crate) fn closed_up_to(clients: &mut [ScriptClient], closed: usize, count: usize) -> usize
    requires few { count ≤ length clients.old }
    requires were { all_closed (take closed clients.old) ≡ true }
    ensures looks { AllLook clients.old clients.new }
    ensures are { all_closed (take result clients.new) ≡ true }
    ensures not_yet { result < count → all_closed (take count clients.new) ≡ false }
{
    let mut found = closed;
    'links: while found < count {
        let client = &mut clients[found];
        client.look();
        if !client.closed {
            return found;
        }
        found += 1;
    }
    found
}
