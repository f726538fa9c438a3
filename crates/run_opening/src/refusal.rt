//! The ends of runs that are refused: each writes its text, unless memory lacks for it.
ghost use Rattle.std.specs.Prelude.{◌≡◌, ◌⊎◌, None, Some, IsNone};
ghost use Rattle.run_opening.specs.Refusals.{EndsSilently};
ghost use Rattle.run_opening.specs.RefusalsInside.{RefusesConfigOf, RefusesRun};
ghost use Rattle.run_report.specs.Texts.{config_refused, front_fault, no_control_line, script_refused, site_refused, store_fault, usage};

use crate::config_reading::NoConfig;
use crate::ending::{Ending, no_memory, unopened};
use mpm_base::{Octets, Sink};
use run_report::{
    ConfigRefusal, ScriptRefusal, config_refused_text, exit_status, front_fault_text,
    no_control_line_text, script_refused_text, site_refused_text, store_fault_text, usage_text,
    write_all,
};
use std::alloc::Global;

/// The words are none of the forms.
pub fn refuse_words<X, K: Sink>(alloc: Global, out: &mut K) -> Ending<X>
    ensures known { (result.status ≡ 2) ⊎ (result.status ≡ 6) }
    ensures left { IsNone result.left }
    ensures refused { result.status ≡ 2 →
        RefusesRun (K.seen out.old) (K.seen out.new) None usage result.shown }
    ensures silent { result.status ≡ 6 →
        EndsSilently (K.seen out.old) (K.seen out.new) result.shown }
{
    match usage_text(alloc) {
        Ok(text) => refuse(out, exit_status::UNKNOWN_WORDS, None, &text),
        Err(_) => no_memory(),
    }
}

/// The file of that name can't be read.
pub fn refuse_unread<X, K: Sink>(
    alloc: Global,
    name: &[u8],
    shown: Option<u64>,
    out: &mut K,
) -> Ending<X>
    ensures known { (result.status ≡ 3) ⊎ (result.status ≡ 6) }
    ensures left { IsNone result.left }
    ensures refused { result.status ≡ 3 →
        RefusesRun (K.seen out.old) (K.seen out.new) shown (store_fault name.now) result.shown }
    ensures silent { result.status ≡ 6 →
        EndsSilently (K.seen out.old) (K.seen out.new) result.shown }
{
    match store_fault_text(alloc, name) {
        Ok(text) => refuse(out, exit_status::UNREAD, shown, &text),
        Err(_) => no_memory(),
    }
}

/// The script is refused at that line, from 1, or at 0 for its size.
pub fn refuse_script<X, K: Sink>(
    alloc: Global,
    why: ScriptRefusal,
    line: u64,
    out: &mut K,
) -> Ending<X>
    ensures known { (result.status ≡ 8) ⊎ (result.status ≡ 6) }
    ensures left { IsNone result.left }
    ensures refused { result.status ≡ 8 →
        RefusesRun (K.seen out.old) (K.seen out.new)
        (Some line) (script_refused line why) result.shown }
    ensures silent { result.status ≡ 6 →
        EndsSilently (K.seen out.old) (K.seen out.new) result.shown }
{
    match script_refused_text(alloc, line, why) {
        Ok(text) => refuse(out, exit_status::REFUSED, Some(line), &text),
        Err(_) => no_memory(),
    }
}

/// The configuration is refused at that line, from 1, or at that place, from 0, where it is no text; or at 0 for its size.
pub fn refuse_config<X, K: Sink>(
    alloc: Global,
    why: ConfigRefusal,
    number: u64,
    out: &mut K,
) -> Ending<X>
    ensures known { (result.status ≡ 1) ⊎ (result.status ≡ 6) }
    ensures left { IsNone result.left }
    ensures refused { result.status ≡ 1 →
        RefusesRun (K.seen out.old) (K.seen out.new)
        (Some number) (config_refused number why) result.shown }
    ensures silent { result.status ≡ 6 →
        EndsSilently (K.seen out.old) (K.seen out.new) result.shown }
{
    match config_refused_text(alloc, number, why) {
        Ok(text) => refuse(out, exit_status::MISCONFIGURED, Some(number), &text),
        Err(_) => no_memory(),
    }
}

/// There is no configuration of the file of that name, or memory lacked for it.
pub fn refuse_config_of<X, K: Sink>(
    alloc: Global,
    name: &str,
    why: NoConfig,
    out: &mut K,
) -> Ending<X>
    ensures known { (result.status ≡ 1) ⊎ (result.status ≡ 3) ⊎ (result.status ≡ 6) }
    ensures left { IsNone result.left }
    ensures refused { (result.status ≡ 1) ⊎ (result.status ≡ 3) →
        RefusesConfigOf (K.seen out.old) (K.seen out.new) name.now why result.status result.shown }
    ensures silent { result.status ≡ 6 →
        EndsSilently (K.seen out.old) (K.seen out.new) result.shown }
{
    match why {
        NoConfig::Missing => refuse_unread(alloc, name.as_bytes(), Some(0), out),
        NoConfig::Failed => refuse_unread(alloc, name.as_bytes(), None, out),
        NoConfig::Refused(why, number) => refuse_config(alloc, why, number, out),
        NoConfig::NoMemory => no_memory(),
    }
}

/// The site is refused for the file of that name, or for the files of the folder of that name.
pub fn refuse_site<X, K: Sink>(alloc: Global, name: &[u8], out: &mut K) -> Ending<X>
    ensures known { (result.status ≡ 9) ⊎ (result.status ≡ 6) }
    ensures left { IsNone result.left }
    ensures refused { result.status ≡ 9 →
        RefusesRun (K.seen out.old) (K.seen out.new) None (site_refused name.now) result.shown }
    ensures silent { result.status ≡ 6 →
        EndsSilently (K.seen out.old) (K.seen out.new) result.shown }
{
    match site_refused_text(alloc, name) {
        Ok(text) => refuse(out, exit_status::SITE_REFUSED, None, &text),
        Err(_) => no_memory(),
    }
}

/// A call of the front failed, and no run opened.
pub fn refuse_front<X, K: Sink>(alloc: Global, out: &mut K) -> Ending<X>
    ensures known { (result.status ≡ 4) ⊎ (result.status ≡ 6) }
    ensures left { IsNone result.left }
    ensures refused { result.status ≡ 4 →
        RefusesRun (K.seen out.old) (K.seen out.new) None front_fault result.shown }
    ensures silent { result.status ≡ 6 →
        EndsSilently (K.seen out.old) (K.seen out.new) result.shown }
{
    match front_fault_text(alloc) {
        Ok(text) => refuse(out, exit_status::FRONT_FAILED, None, &text),
        Err(_) => no_memory(),
    }
}

/// The configuration has no control line.
pub fn refuse_uncontrolled<X, K: Sink>(alloc: Global, out: &mut K) -> Ending<X>
    ensures known { (result.status ≡ 10) ⊎ (result.status ≡ 6) }
    ensures left { IsNone result.left }
    ensures refused { result.status ≡ 10 →
        RefusesRun (K.seen out.old) (K.seen out.new) None no_control_line result.shown }
    ensures silent { result.status ≡ 6 →
        EndsSilently (K.seen out.old) (K.seen out.new) result.shown }
{
    match no_control_line_text(alloc) {
        Ok(text) => refuse(out, exit_status::UNCONTROLLED, None, &text),
        Err(_) => no_memory(),
    }
}

/// The run is refused with that status: the text is written, as far as the output takes it.
fn refuse<X, K: Sink>(out: &mut K, status: u8, shown: Option<u64>, text: &Octets) -> Ending<X>
    ensures status { result.status ≡ status }
    ensures left { IsNone result.left }
    ensures refused { RefusesRun (K.seen out.old) (K.seen out.new) shown text.now result.shown }
{
    let _ = write_all(out, text.as_slice());
    unopened(status, shown)
}
