//! What the lines of a script say of each of its links.
ghost use Rattle.std.specs.Prelude.{◌≡◌, [], length, map, OnOk};
ghost use Rattle.mpm_base.specs.declared.script_line.ScriptLine.TheVariants as said;
ghost use Rattle.script_front.specs.PlayedPartsInside.{TellsPlans, new_plan, plan_after, plan_after_act, plan_of, plans};

use crate::script_client::act_in;
use mpm_base::{ClientAct, LinkCall, NoMemory, Octets, ScriptLine};
use mpm_script::NameChains;
use stand_ins::{Calls, Wire};
use std::alloc::Global;
use std::collections::VecDeque;
use std::sync::Arc;

/// What a link is made of that was not handed out: what its client sends up to its first end and whether there is one, the
/// numbers of its reads and of its writes that are to fail, in the order of their lines, and whether a line drops it.
#[derive(Drop)]
pub(crate) struct LinkPlan {
    pub(crate) text: Octets,
    pub(crate) ended: bool,
    pub(crate) fail_reads: Calls,
    pub(crate) fail_writes: Calls,
    pub(crate) drops: bool,
}

impl LinkPlan {
    /// Nothing is said of the link yet, which takes no memory.
    pub(crate) fn make(alloc: Global) -> LinkPlan
        ensures { result ≡ new_plan }
    {
        LinkPlan {
            text: Octets::make(alloc),
            ended: false,
            fail_reads: Calls::make(alloc),
            fail_writes: Calls::make(alloc),
            drops: false,
        }
    }

    /// A line says that the client does this.
    pub(crate) fn hear(&mut self, act: &ClientAct) -> Result<(), NoMemory>
        ensures { OnOk result (self.new ≡ plan_after_act act.now self.old) }
    {
        match act {
            ClientAct::Send(bytes) => {
                if !self.ended {
                    self.text.add(bytes.as_slice())?;
                }
            }
            ClientAct::End => self.ended = true,
            ClientAct::Room(_) => (),
            ClientAct::Drop => self.drops = true,
            ClientAct::Fail(LinkCall::Read, number) => self.fail_reads.add(*number)?,
            ClientAct::Fail(LinkCall::Write, number) => self.fail_writes.add(*number)?,
        }
        Ok(())
    }
}

/// What a link is made of that was not handed out, and what the front shares with it.
#[derive(Drop)]
pub(crate) struct Awaited {
    pub(crate) plan: LinkPlan,
    pub(crate) wire: Arc<Wire>,
}

/// Puts down what the lines say of each link, in one pass.
pub(crate) fn hear_lines(
    chains: &NameChains,
    lines: &[ScriptLine],
    awaited: &mut VecDeque<Awaited>,
) -> Result<(), NoMemory>
    requires { plans awaited.old.items ≡ map (plan_after []) chains.now }
    ensures { OnOk result (plans awaited.new.items ≡ map (plan_of lines.now) chains.now) }
{
    for line in lines {
        if let Some((name, act)) = act_in(line) {
            hear_act(chains, name, act, awaited)?;
        }
    }
    Ok(())
}

/// Puts down what the act of the clients of that name says of their links.
fn hear_act(
    chains: &NameChains,
    name: &[u8],
    act: &ClientAct,
    awaited: &mut VecDeque<Awaited>,
) -> Result<(), NoMemory>
    requires { length awaited.old.items ≡ length chains.now }
    ensures each { OnOk result (length awaited.new.items ≡ length chains.now) }
    ensures tells { OnOk result
        (TellsPlans (said.Client name.now act.now) chains.now (plans awaited.old.items)
        (plans awaited.new.items)) }
{
    let mut next = chains.last(name);
    'places: while let Some(place) = next {
        let one = &mut awaited[place];
        one.plan.hear(act)?;
        next = chains.earlier(place);
    }
    Ok(())
}
