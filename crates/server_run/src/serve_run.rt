//! The run of a server: `-f FILE`.
ghost use Rattle.std.specs.Prelude.{◌≡◌, ◌⊎◌, ◌++◌, ℕ, List, [], None, false, IfSome, IsNone, IsSome};
ghost use Rattle.command_words.specs.Invocations.{IsServeWords};
ghost use Rattle.mpm_base.specs.Front.{Binds};
ghost use Rattle.server_run.specs.EndsInside.{EndsServe, IsOpenedStatus, LeavesUnbound, RefusesFolder};
ghost use Rattle.listener.specs.Counted.{AsksOnce, LeavesClock};
ghost use Rattle.listener_round.specs.Generations.{head_limits_of};
ghost use Rattle.listener_round.specs.OrdersInside.{opening_by};
ghost use Rattle.listener.specs.Outside.{TellsStill};
ghost use Rattle.listener.specs.RunsInside.{HasRunBy, open_lines_of};
ghost use Rattle.listener.specs.Unused.{IsUnused};
ghost use Rattle.run_opening.specs.Calls.{seen_call};
ghost use Rattle.run_opening.specs.Configured.{warnings_of};
ghost use Rattle.run_opening.specs.Refusals.{EndsSilently};
ghost use Rattle.run_opening.specs.RefusalsInside.{RefusesRun};
ghost use Rattle.run_report.specs.Endings.{EndsAs};
ghost use Rattle.run_report.specs.Texts.{front_fault};

use board::Board;
use conn_state::Nothing;
use file_table::LoadFault;
use listener::{OpenFault, ServedRun, run_server};
use listener_round::{LoadedEdition, NamedConfig, head_limits_of};
use mpm_base::{Clock, Front, Gate, Octets, Sink, Store};
use mpm_config::Config;
use restart_control::{MOST_CONFIG, load_site};
use run_opening::{
    Ending, config_from, no_memory, refuse_config_of, refuse_front, refuse_site, refuse_unread,
};
use run_report::report_run;
use std::alloc::Global;
use std::marker::Brand;
use std::sync::{Arc, Wait};

/// Serves over the front and the clock, by the configuration of that name in the store and the site that the store has by it, until the
/// server is asked to stop or its front ends or fails, and writes the warnings and the report, or why there is none.
pub fn serve_file<R: Wait, D: Store, F: Front, C: Clock, G: Gate, K: Sink>(
    rt: &R,
    alloc: Global,
    name: &str,
    store: &mut D,
    front: &mut F,
    clock: &mut C,
    gate: &G,
    out: &mut K,
) -> Ending<Board<F::L, Nothing>>
    requires unused { IfSome (F.seen front.old).told IsUnused }
    requires unasked { IfSome (C.told clock.old) (λ calls. calls ≡ []) }
    ensures telling { TellsStill (F.seen front.old) (F.seen front.new)
        (C.told clock.old) (C.told clock.new) }
    ensures ends { (words : List (List ℕ)) → IsServeWords words name.now → EndsServe
        (seen_call words (D.seen store.old) (D.seen store.new)
        (K.seen out.old) (K.seen out.new) result.shown)
        (F.seen front.old) (F.seen front.new) (C.told clock.old) (C.told clock.new)
        result.status result.left }
    ensures clocked { LeavesClock result.left (C.greatest clock.old) (C.greatest clock.new) }
    ensures asked { AsksOnce (F.seen front.old).counts.wakes (F.seen front.new).counts.wakes
        (C.asked clock.old) (C.asked clock.new) }
{
    let answer = store.read_bytes(alloc, name, MOST_CONFIG);
    let (config, told) = match config_from(alloc, answer) {
        Ok(read) => read,
        Err(why) => return refuse_config_of(alloc, name, why, out),
    };
    let site = match load_site(alloc, store, &config) {
        Ok(site) => site,
        Err(fault) => return refuse_folder(alloc, fault, &config, out),
    };
    let Ok(site) = Arc::new(alloc, site) else {
        return no_memory();
    };
    let edition = LoadedEdition {
        limits: head_limits_of(&config),
        site,
        stop_ms: config.now.stop_ms,
    };
    let config = NamedConfig {
        name,
        config: &config,
    };
    serve_edition(
        rt, alloc, config, edition, &told, store, front, clock, gate, out,
    )
}

/// The end of a run whose site is refused for the fault, or for which memory lacked.
fn refuse_folder<X, K: Sink>(
    alloc: Global,
    fault: LoadFault,
    config: &Config,
    out: &mut K,
) -> Ending<X>
    ensures known { (result.status ≡ 3) ⊎ (result.status ≡ 9) ⊎ (result.status ≡ 6) }
    ensures left { IsNone result.left }
    ensures refused { (result.status ≡ 3) ⊎ (result.status ≡ 9) →
        RefusesFolder (K.seen out.old) (K.seen out.new) config.entry.now fault
        result.status result.shown }
    ensures silent { result.status ≡ 6 →
        EndsSilently (K.seen out.old) (K.seen out.new) result.shown }
{
    config.show();
    match fault {
        LoadFault::StoreFault => refuse_unread(alloc, config.root.as_slice(), None, out),
        LoadFault::TooMany(root) => refuse_site(alloc, root.as_slice(), out),
        LoadFault::TooLarge(name, _) => refuse_site(alloc, name.as_slice(), out),
        LoadFault::NoMemory => no_memory(),
    }
}

/// Serves by the configuration, of which this is told, and the edition, and writes the warnings and the report.
fn serve_edition<R: Wait, D: Store, F: Front, C: Clock, G: Gate, K: Sink>(
    rt: &R,
    alloc: Global,
    config: NamedConfig<'_>,
    edition: LoadedEdition,
    told: &Octets,
    store: &mut D,
    front: &mut F,
    clock: &mut C,
    gate: &G,
    out: &mut K,
) -> Ending<Board<F::L, Nothing>>
    requires told { told.now ≡ warnings_of config.config.now }
    requires limits { edition.limits ≡ head_limits_of config.config.now }
    requires timeout { edition.stop_ms ≡ config.config.now.current.stop_ms }
    requires unused { IfSome (F.seen front.old).told IsUnused }
    requires unasked { IfSome (C.told clock.old) (λ calls. calls ≡ []) }
    ensures run { IfSome result.left (λ b.
        (run : HasRunBy (opening_by config.entry edition (D.seen store.old) (F.seen front.old))
        (D.seen store.new) (F.seen front.new) (C.told clock.new) b)
        × EndsAs (K.seen out.old) (K.seen out.new)
        (warnings_of config.entry.config.now ++ open_lines_of run) b result.status) }
    ensures store { IsNone result.left → D.seen store.new ≡ D.seen store.old }
    ensures telling { TellsStill (F.seen front.old) (F.seen front.new)
        (C.told clock.old) (C.told clock.new) }
    ensures shown { IsSome result.left → result.shown ≡ None }
    ensures known { IsOpenedStatus result.status }
    ensures opened { (result.status ≡ 0) ⊎ (result.status ≡ 5) → IsSome result.left }
    ensures unbound { result.status ≡ 4 → IsNone result.left →
        Binds (F.seen front.old) (F.seen front.new)
        config.entry.config.now.listen config.entry.config.now.control false
        × RefusesRun (K.seen out.old) (K.seen out.new) None front_fault result.shown }
    ensures front { IsNone result.left →
        LeavesUnbound (F.seen front.old) (F.seen front.new) config.entry.config.now result.status }
    ensures clock { IsNone result.left → C.told clock.new ≡ C.told clock.old }
    ensures clocked { LeavesClock result.left (C.greatest clock.old) (C.greatest clock.new) }
    ensures asked { AsksOnce (F.seen front.old).counts.wakes (F.seen front.new).counts.wakes
        (C.asked clock.old) (C.asked clock.new) }
    ensures silent { result.status ≡ 6 → IsNone result.left →
        EndsSilently (K.seen out.old) (K.seen out.new) result.shown }
{
    let answer = run_server::<R, D, F::L, F, C, G, K, Brand>(
        rt,
        alloc,
        config,
        edition,
        store,
        front,
        clock,
        gate,
        out,
        told.as_slice(),
    );
    match answer {
        Ok(served) => {
            let ServedRun { board, written } = served;
            let status = report_run(alloc, &board, written, out);
            Ending {
                status,
                shown: None,
                left: Some(board),
            }
        }
        Err(OpenFault::Bind) => refuse_front(alloc, out),
        Err(OpenFault::NoMemory) => no_memory(),
    }
}
