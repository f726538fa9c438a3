//! The report of a run: its numbers, and a line for each of the first connections that ended.
ghost use Rattle.std.specs.Prelude.{◌≡◌, ◌++◌, IfOk, OnOk};
ghost use Rattle.std.specs.List.{flat_map};
ghost use Rattle.conn_machine.specs.Events.{causes};
ghost use Rattle.run_report.specs.Report as spec;

use board::report_line::cause_word;
use mpm_base::{Cause, NoMemory, Octets};
use std::alloc::Global;

/// The causes, in order.
const CAUSES: [Cause; 9] = [
    Cause::ClientDone,
    Cause::LastSent,
    Cause::KeepAliveLate,
    Cause::ReadLate,
    Cause::WriteLate,
    Cause::Retiring,
    Cause::LinkFailed,
    Cause::Stopped,
    Cause::NoMemory,
];

/// What a report says.
#[derive(Drop)]
pub struct Tally {
    /// The newest generation.
    pub generation: u32,
    /// How many connections were accepted.
    pub accepted: u64,
    /// How many connections were closed.
    pub closed: u64,
    /// How many responses were decided.
    pub responses: u64,
    /// How many connections were closed for each cause, in the order of `Cause`.
    pub causes: [u64; 9],
    /// How often a child was started.
    pub children: u64,
    /// A line for each of the first 64 connections that ended, in the order of their closes.
    pub lines: Octets,
}

/// The text of a report.
pub fn report_text(alloc: Global, view: &Tally) -> Result<Octets, NoMemory>
    ensures { IfOk result (λ text. text ≡ spec.text_of view.now) }
{
    let mut text = Octets::make(alloc);
    add_count(&mut text, b"Generation", view.generation as u64)?;
    add_count(&mut text, b"Accepted", view.accepted)?;
    add_count(&mut text, b"Closed", view.closed)?;
    add_count(&mut text, b"Responses", view.responses)?;
    add_causes(&mut text, &view.causes)?;
    add_count(&mut text, b"ChildrenStarted", view.children)?;
    text.add(view.lines.as_slice())?;
    Ok(text)
}

/// Adds the lines of the causes.
fn add_causes(text: &mut Octets, counts: &[u64; 9]) -> Result<(), NoMemory>
    ensures { OnOk result (text.new ≡ text.old ++ flat_map (spec.cause_line counts.now) causes) }
{
    for cause in &CAUSES {
        add_count(text, cause_word(*cause), counts[cause.number() as usize])?;
    }
    Ok(())
}

/// Adds a line with a number.
fn add_count(text: &mut Octets, name: &[u8], count: u64) -> Result<(), NoMemory>
    ensures { OnOk result (text.new ≡ text.old ++ spec.count_line name.now count) }
{
    text.add(name)?;
    text.add(b": ")?;
    text.add_number(count)?;
    text.add(b"\n")
}
