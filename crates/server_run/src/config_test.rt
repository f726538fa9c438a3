//! The test of a configuration: `-t -f FILE`. It loads no files, and plays nothing.
//! Why it is so stands in docs/DECISIONS.md: 79, What a test reads.
ghost use Rattle.std.specs.Prelude.{◌≡◌, ◌⊎◌, ◌++◌, ℕ, List, None, option_map};
ghost use Rattle.command_words.specs.Invocations.{IsTestWords};
ghost use Rattle.server_run.specs.EndsInside.{EndsTest};
ghost use Rattle.run_opening.specs.Calls.{seen_call};
ghost use Rattle.run_opening.specs.Refusals.{EndsSilently};
ghost use Rattle.run_report.specs.Texts.{syntax_ok};
ghost use Rattle.run_report.specs.Written.{LeavesUnwritten};

use mpm_base::{Octets, Sink, Store};
use restart_control::MOST_CONFIG;
use run_opening::{Ending, config_from, no_memory, refuse_config_of, unopened};
use run_report::{add_syntax_ok, exit_status, write_all};
use std::alloc::Global;

/// Tests the configuration of that name in the store, and writes its warnings and that it is accepted, or why it isn't.
pub fn test_config<D: Store, K: Sink>(
    alloc: Global,
    name: &str,
    store: &mut D,
    out: &mut K,
) -> Ending<()>
    ensures { (words : List (List ℕ)) → IsTestWords words name.now → EndsTest
        (seen_call words (D.seen store.old) (D.seen store.new)
        (K.seen out.old) (K.seen out.new) result.shown)
        result.status }
{
    let answer = store.read_bytes(alloc, name, MOST_CONFIG);
    match config_from(alloc, answer) {
        Ok((_, told)) => pass(told, out),
        Err(why) => refuse_config_of(alloc, name, why, out),
    }
}

/// The configuration is accepted, and these are its warnings.
fn pass<K: Sink>(told: Octets, out: &mut K) -> Ending<()>
    ensures known { (result.status ≡ 0) ⊎ (result.status ≡ 5) ⊎ (result.status ≡ 6) }
    ensures shown { result.shown ≡ None }
    ensures written { result.status ≡ 0 → (K.seen out.new).told
        ≡ option_map (λ written. written ++ (told ++ syntax_ok)) (K.seen out.old).told }
    ensures unwritten { result.status ≡ 5 →
        LeavesUnwritten (K.seen out.old) (K.seen out.new) (told ++ syntax_ok) }
    ensures silent { result.status ≡ 6 →
        EndsSilently (K.seen out.old) (K.seen out.new) result.shown }
{
    let mut text = told;
    match add_syntax_ok(&mut text) {
        Ok(()) if write_all(out, text.as_slice()) => unopened(exit_status::ACCEPTED, None),
        Ok(()) => unopened(exit_status::UNWRITTEN, None),
        Err(_) => no_memory(),
    }
}
