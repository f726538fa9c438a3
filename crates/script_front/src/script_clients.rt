//! The clients of a script, as its front knows them.
ghost use Rattle.std.specs.Prelude.{◌≡◌, ◌<◌, ◌≤◌, Some, [], ◌∷◌, length, take, map, slice_set, IfOk, IfSome, IfNone};
ghost use Rattle.mpm_script.specs.Clients.{names_of};
ghost use Rattle.script_front.specs.DuePlacesInside.{AllLook};
ghost use Rattle.script_front.specs.PlayedPartsInside.{plans_of};
ghost use Rattle.script_front.specs.ScriptFront.{no_name_yet};
ghost use Rattle.script_front.specs.Signals.{Gives, client_after_lines, after_watch_of, all_closed, new_client};

use crate::client_parts::parts_of;
use crate::client_plans::Awaited;
use crate::due_places::DuePlaces;
use crate::script_client::{ScriptClient, closed_up_to, give, happen};
use mpm_base::{ConnName, NoMemory, Ready, ScriptLine};
use mpm_script::NameChains;
use std::alloc::Global;
use std::collections::VecDeque;
use std::marker::Model;

/// The clients of a script in the order of its connections, what the links are made of that were not handed out, and under
/// which name each link is watched.
#[derive(Drop)]
pub(crate) struct ScriptClients {
    chains: NameChains,
    awaited: VecDeque<Awaited>,
    clients: Vec<ScriptClient>,
    names: Vec<Option<ConnName>>,
    due: DuePlaces,
    closed: usize,
}

impl Model for ScriptClients {
    ghost use Rattle.std.specs.Prelude.{map};
    ghost use Rattle.script_front.specs.PlayedPartsInside.{SeenClients};

    ghost Value = { SeenClients };

    ghost view = { λ c.
        record {
          waiting = map
              (λ awaited.
              awaited.plan) c.awaited.items;
          clients = c.clients.items;
          watched = c.names.items;
        } };

    ghost use Rattle.script_front.specs.PlayedPartsInside.{AreClients};

    ghost invariant = { λ c. AreClients c.chains c.clients.items c.names.items c.due c.closed };
}

impl ScriptClients {
    /// The clients of the script. No link was handed out.
    pub(crate) fn make(alloc: Global, lines: &[ScriptLine]) -> Result<ScriptClients, NoMemory>
        ensures waiting { IfOk result (λ clients. clients.waiting ≡ plans_of lines.now) }
        ensures clients { IfOk result
            (λ clients. clients.clients ≡ map new_client (names_of lines.now)) }
        ensures watched { IfOk result
            (λ clients. clients.watched ≡ map no_name_yet (names_of lines.now)) }
    {
        let parts = parts_of(alloc, lines)?;
        let due = DuePlaces::make(alloc, parts.clients.len())?;
        Ok(ScriptClients {
            chains: parts.chains,
            awaited: parts.awaited,
            clients: parts.clients,
            names: parts.watched,
            due,
            closed: 0,
        })
    }

    /// Takes out what the next link is made of.
    pub(crate) fn next(&mut self) -> Option<Awaited>
        ensures some { IfSome result (λ next. self.old.waiting ≡ next.plan ∷ self.new.waiting) }
        ensures none { IfNone result (self.old.waiting ≡ []) }
        ensures rest { self.new ≡ record self.old { waiting = self.new.waiting } }
    {
        self.awaited.pop_front()
    }

    /// How many connections there are.
    pub(crate) fn count(&self) -> usize
        ensures { result ≡ length self.now.watched }
    {
        self.names.len()
    }

    /// The link of that number, from 0, is watched under the name.
    pub(crate) fn watch(&mut self, number: usize, name: ConnName)
        ensures { self.new
            ≡ record self.old {
              clients = after_watch_of number self.old.clients;
              watched = slice_set self.old.watched number (Some name);
            } }
    {
        if number < self.clients.len() {
            self.names[number] = Some(name);
            self.clients[number].watch();
            self.due.add(number);
        }
    }

    /// These lines happen to the clients that they name.
    pub(crate) fn happen(&mut self, lines: &[ScriptLine])
        ensures { self.new
            ≡ record self.old { clients = map (client_after_lines lines.now) self.old.clients } }
    {
        happen(
            &self.chains,
            lines,
            &mut self.due,
            self.clients.as_mut_slice(),
        );
    }

    /// Gives the slots of those watched links for which a signal is due and which weren't closed, as far as there is room.
    pub(crate) fn give(&mut self, ready: &mut Ready)
        requires each { length self.old.clients ≡ length self.old.watched }
        requires none { ready.old ≡ [] }
        ensures gives { Gives 256 self.old.clients self.old.watched self.new.clients ready.new }
        ensures rest { self.new ≡ record self.old { clients = self.new.clients } }
    {
        give(
            &mut self.due,
            self.clients.as_mut_slice(),
            self.names.as_slice(),
            ready,
        );
    }

    /// Whether each of the first so many links is found closed. Those that were found so before aren't looked at again.
    pub(crate) fn find_closed(&mut self, count: usize) -> bool
        requires few { count ≤ length self.old.clients }
        ensures is { result ≡ all_closed (take count self.new.clients) }
        ensures looks { AllLook self.old.clients self.new.clients }
        ensures rest { self.new ≡ record self.old { clients = self.new.clients } }
    {
        self.closed = closed_up_to(self.clients.as_mut_slice(), self.closed, count);
        count <= self.closed
    }
}
