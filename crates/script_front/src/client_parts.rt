//! The parts of a script's clients, as they are put together.
ghost use Rattle.std.specs.Prelude.{◌≡◌, None, [], ◌∷◌, ◌++◌, map, IfOk, IfSome, IfNone, OnOk};
ghost use Rattle.mpm_script.specs.Clients.{made_by, names_of};
ghost use Rattle.script_front.specs.PlayedPartsInside.{new_plan, plan_after, plans, plans_of};
ghost use Rattle.script_front.specs.ScriptFront.{no_name_yet};
ghost use Rattle.script_front.specs.Signals.{new_client};

use crate::client_plans::{Awaited, LinkPlan, hear_lines};
use crate::script_client::ScriptClient;
use mpm_base::{ConnName, NoMemory, Octets, ScriptLine};
use mpm_script::NameChains;
use stand_ins::Wire;
use std::alloc::Global;
use std::collections::VecDeque;
use std::sync::Arc;

/// Clients in the order of their connections, by their names, what their links are made of, and under which name each link is
/// watched.
#[derive(Drop)]
pub(crate) struct ClientParts {
    pub(crate) chains: NameChains,
    pub(crate) awaited: VecDeque<Awaited>,
    pub(crate) clients: Vec<ScriptClient>,
    pub(crate) watched: Vec<Option<ConnName>>,
}

/// The clients of the lines. No link was handed out.
pub(crate) fn parts_of(alloc: Global, lines: &[ScriptLine]) -> Result<ClientParts, NoMemory>
    ensures chains { IfOk result (λ parts. parts.chains ≡ names_of lines.now) }
    ensures waiting { IfOk result (λ parts. plans parts.awaited.items ≡ plans_of lines.now) }
    ensures clients { IfOk result
        (λ parts. parts.clients.items ≡ map new_client (names_of lines.now)) }
    ensures watched { IfOk result
        (λ parts. parts.watched.items ≡ map no_name_yet (names_of lines.now)) }
{
    let mut parts = named_parts(alloc, lines)?;
    hear_lines(&parts.chains, lines, &mut parts.awaited)?;
    Ok(parts)
}

/// The clients of the lines, of whose links nothing is said yet.
fn named_parts(alloc: Global, lines: &[ScriptLine]) -> Result<ClientParts, NoMemory>
    ensures chains { IfOk result (λ parts. parts.chains ≡ names_of lines.now) }
    ensures waiting { IfOk result
        (λ parts. plans parts.awaited.items ≡ map (plan_after []) (names_of lines.now)) }
    ensures clients { IfOk result
        (λ parts. parts.clients.items ≡ map new_client (names_of lines.now)) }
    ensures watched { IfOk result
        (λ parts. parts.watched.items ≡ map no_name_yet (names_of lines.now)) }
{
    let mut parts = ClientParts {
        chains: NameChains::make(alloc),
        awaited: VecDeque::new(alloc),
        clients: Vec::new(alloc),
        watched: Vec::new(alloc),
    };
    for line in lines {
        if let Some(name) = made_by(line) {
            parts.add(alloc, name)?;
        }
    }
    Ok(parts)
}

impl ClientParts {
    /// Puts a client behind the others. Where memory lacks a part of it may be there.
    fn add(&mut self, alloc: Global, name: &[u8]) -> Result<(), NoMemory>
        ensures chains { OnOk result (self.new.chains ≡ self.old.chains ++ name.now ∷ []) }
        ensures waiting { OnOk result
            (plans self.new.awaited.items ≡ plans self.old.awaited.items ++ new_plan ∷ []) }
        ensures clients { OnOk result
            (self.new.clients.items ≡ self.old.clients.items ++ new_client name.now ∷ []) }
        ensures watched { OnOk result
            (self.new.watched.items ≡ self.old.watched.items ++ None ∷ []) }
    {
        let wire = Arc::new(alloc, Wire::make())?;
        let theirs = Arc::try_clone(&wire)?;
        let client = ScriptClient::make(Octets::of(alloc, name)?, wire);
        let plan = LinkPlan::make(alloc);
        self.chains.add(alloc, name)?;
        self.clients.push(client)?;
        self.watched.push(None)?;
        self.awaited.push_back(Awaited { plan, wire: theirs })?;
        Ok(())
    }
}

/// The name of the connection that the line makes.
fn made_by(line: &ScriptLine) -> Option<&[u8]>
    ensures some { IfSome result (λ name. made_by line.now ≡ name.now ∷ []) }
    ensures none { IfNone result (made_by line.now ≡ []) }
{
    match line {
        ScriptLine::Conn(name) => Some(name.as_slice()),
        _ => None,
    }
}
