//! What a line of a script has to agree with: the connections that the lines before it make, and their moment. The
//! definitions stand in `specs/Script.antt`.
ghost use Rattle.std.specs.Prelude.{◌≡◌, List, [], ◌∷◌, ◌++◌, bytes_eq, OnOk, OnErr};
ghost use Rattle.std.specs.List.{list_any};
ghost use Rattle.mpm_script.specs.Clients.{made_by, names_of};
ghost use Rattle.mpm_script.specs.Script.{is_backwards, is_repeated, is_unknown, moment_from};
ghost use Rattle.mpm_base.specs.declared.script_line.ScriptLine.{ScriptLine as Line};

use crate::name_places::NamePlaces;
use mpm_base::{Moment, NoMemory, ScriptLine};
use std::alloc::Global;

/// Whether the line makes a connection whose name was used; the names are those of the lines before it.
pub(crate) fn is_repeated(names: &NamePlaces, line: &ScriptLine) -> bool
    ensures { (before : List Line) → names.now ≡ names_of before →
        result ≡ is_repeated before line.now }
{
    match line {
        ScriptLine::Conn(name) => has_name(names, name.as_slice()),
        _ => false,
    }
}

/// Whether the line names a connection that no earlier line makes; the names are those of the lines before it.
pub(crate) fn is_unknown(names: &NamePlaces, line: &ScriptLine) -> bool
    ensures { (before : List Line) → names.now ≡ names_of before →
        result ≡ is_unknown before line.now }
{
    match line {
        ScriptLine::Client(name, _) => !has_name(names, name.as_slice()),
        _ => false,
    }
}

/// Whether the line goes back behind the moment, which is that of the lines before it.
pub(crate) fn is_backwards(moment: Moment, line: &ScriptLine) -> bool
    ensures { (before : List Line) → moment ≡ moment_from 0 before →
        result ≡ is_backwards before line.now }
{
    match line {
        ScriptLine::At(later) => *later < moment,
        _ => false,
    }
}

/// The moment after the line, which begins at that moment.
pub(crate) fn moment_after(moment: Moment, line: &ScriptLine) -> Moment
    ensures { result ≡ moment_from moment (line.now ∷ []) }
{
    match line {
        ScriptLine::At(later) => *later,
        _ => moment,
    }
}

/// Puts the name of the connection that the line makes at the end. Where memory lacks nothing changes.
pub(crate) fn add_name(
    alloc: Global,
    names: &mut NamePlaces,
    line: &ScriptLine,
) -> Result<(), NoMemory>
    ensures ok { OnOk result (names.new ≡ names.old ++ made_by line.now) }
    ensures err { OnErr result (names.new ≡ names.old) }
{
    match line {
        ScriptLine::Conn(name) => names.add(alloc, name.as_slice()),
        _ => Ok(()),
    }
}

#[tactic(auto, using(crate::proofs::NamePlaceLemmas::has_place))]
fn has_name(names: &NamePlaces, name: &[u8]) -> bool
    ensures { result ≡ list_any (λ other. bytes_eq other name.now) names.now }
{
    names.place(name).is_some()
}
