//! The run of a script: `--script FILE`, and `--load N`.
ghost use Rattle.std.specs.Prelude.{◌≡◌, ◌≤◌, ◌⊎◌, ℕ, List, false, None, Ok, Err, IfSome, IsSome, IsNone, MatchResult};
ghost use Rattle.command_words.specs.Invocations.{IsLoadWords, IsScriptWords};
ghost use Rattle.file_table.specs.Load.{is_store_fault};
ghost use Rattle.mpm_base.specs.Store.{StoreSeen};
ghost use Rattle.listener_round.specs.Generations.{head_limits_of};
ghost use Rattle.script_run.specs.PlayedInside.{EndsScript, HasRunScript, IsPlayed, IsPlayedStatus, IsServedRun};
ghost use Rattle.script_run.specs.ScriptRefusals.{fault_at};
ghost use Rattle.script_run.specs.ScriptsInside.{IsConfigRefusalOf, IsOfText, IsRefusalOf, IsScriptConfig, IsSiteRefusalOf, RefusesConfig, RefusesLoad, RefusesSite};
ghost use Rattle.mpm_script.specs.FileNames.{HaveTextNames};
ghost use Rattle.run_opening.specs.Calls.{seen_call};
ghost use Rattle.run_opening.specs.Configured.{warnings_of};
ghost use Rattle.run_opening.specs.Refusals.{EndsSilently};
ghost use Rattle.run_report.specs.Endings.{EndsAs};
ghost use Rattle.script_front.specs.Editions.{editions_of, store_of};

use crate::scripted::Scripted;
use file_table::LoadFault;
use listener::{OpenFault, ServedRun, run_server};
use listener_round::{LoadedEdition, NamedConfig, head_limits_of};
use mpm_base::{Content, Gate, NoMemory, Octets, Sink, Store, StoreFault};
use mpm_config::Config;
use mpm_script::{Script, ScriptFault, load_script, read_script};
use restart_control::{MOST_CONFIG, load_site};
use run_opening::{
    Ending, NoConfig, config_from, no_memory, refuse_config, refuse_script, refuse_site,
    refuse_unread,
};
use run_report::{ScriptRefusal, report_run};
use script_front::{
    CONF_NAME, ScriptClock, ScriptFront, editions_have_a_configuration, script_store,
};
use stand_ins::{PlainStore, ScriptLink};
use std::alloc::Global;
use std::marker::Brand;
use std::sync::{Arc, Wait};

/// The most bytes that a script may have.
const MOST_SCRIPT: u64 = 67_108_864;

/// Plays the script of that name in the store, by the configuration and the site that its lines write, and writes the warnings and the
/// report, or why there is none.
pub fn run_script<R: Wait, D: Store, G: Gate, K: Sink>(
    rt: &R,
    alloc: Global,
    name: &str,
    store: &mut D,
    gate: &G,
    out: &mut K,
) -> Ending<Scripted>
    ensures { (words : List (List ℕ)) → IsScriptWords words name.now → EndsScript
        (seen_call words (D.seen store.old) (D.seen store.new)
        (K.seen out.old) (K.seen out.new) result.shown)
        result.status result.left }
{
    let bytes = match store.read_bytes(alloc, name, MOST_SCRIPT) {
        Ok(bytes) => bytes,
        Err(StoreFault::Missing) => return refuse_unread(alloc, name.as_bytes(), Some(0), out),
        Err(StoreFault::Failed) => return refuse_unread(alloc, name.as_bytes(), None, out),
        Err(StoreFault::Large(_)) => return refuse_script(alloc, ScriptRefusal::BadLine, 0, out),
        Err(StoreFault::Many | StoreFault::NoMemory) => return no_memory(),
    };
    match read_script(alloc, bytes.as_slice()) {
        Ok(script) => play_script(rt, alloc, script, gate, out),
        Err(fault) => refuse_for(alloc, fault, out),
    }
}

/// Plays the script of a load of so many connections, from 1 to 100,000, as a script that was read is played.
pub fn run_load<R: Wait, G: Gate, K: Sink>(
    rt: &R,
    alloc: Global,
    count: u32,
    gate: &G,
    out: &mut K,
) -> Ending<Scripted>
    requires some { 1 ≤ count }
    requires few { count ≤ 100_000 }
    ensures { (words : List (List ℕ)) (store : StoreSeen) → IsLoadWords words count → EndsScript
        (seen_call words store store (K.seen out.old) (K.seen out.new) result.shown)
        result.status result.left }
{
    match load_script(alloc, count) {
        Ok(script) => play_script(rt, alloc, script, gate, out),
        Err(NoMemory) => no_memory(),
    }
}

/// The end of a run whose script is refused for the fault, or for which memory lacked.
fn refuse_for<K: Sink>(alloc: Global, fault: ScriptFault, out: &mut K) -> Ending<Scripted>
    ensures known { (result.status ≡ 8) ⊎ (result.status ≡ 6) }
    ensures scripted { IsNone result.left }
    ensures refused { result.status ≡ 8 →
        IsRefusalOf (K.seen out.old) (K.seen out.new) fault result.shown }
    ensures silent { result.status ≡ 6 →
        EndsSilently (K.seen out.old) (K.seen out.new) result.shown }
{
    match refusal_at(fault) {
        Some((line, why)) => refuse_script(alloc, why, line, out),
        None => no_memory(),
    }
}

/// The line at which a script is refused, and why. None where memory lacked.
fn refusal_at(fault: ScriptFault) -> Option<(u64, ScriptRefusal)>
    ensures { IfSome result (λ refusal. fault ≡ fault_at refusal.1 refusal.0) }
{
    match fault {
        ScriptFault::BadLine(line) => Some((line, ScriptRefusal::BadLine)),
        ScriptFault::MomentBackwards(line) => Some((line, ScriptRefusal::MomentBackwards)),
        ScriptFault::UnknownName(line) => Some((line, ScriptRefusal::UnknownName)),
        ScriptFault::NoMemory => None,
    }
}

/// Plays the script by the configuration and the site that its lines write.
fn play_script<R: Wait, G: Gate, K: Sink>(
    rt: &R,
    alloc: Global,
    script: Script,
    gate: &G,
    out: &mut K,
) -> Ending<Scripted>
    requires { HaveTextNames script }
    ensures kept { IfSome result.left (λ s.
        IsPlayed script s (K.seen out.old) (K.seen out.new) result.status) }
    ensures opened { (result.status ≡ 0) ⊎ (result.status ≡ 5) → IsSome result.left }
    ensures shown { IsSome result.left → result.shown ≡ None }
    ensures known { IsPlayedStatus result.status ⊎ (result.status ≡ 1) ⊎ (result.status ≡ 9) }
    ensures misconfigured { result.status ≡ 1 →
        IsConfigRefusalOf (K.seen out.old) (K.seen out.new) script result.shown }
    ensures site_refused { result.status ≡ 9 →
        IsSiteRefusalOf (K.seen out.old) (K.seen out.new) script result.shown }
    ensures silent { result.status ≡ 6 → IsNone result.left →
        EndsSilently (K.seen out.old) (K.seen out.new) result.shown }
{
    let Ok(mut store) = script_store(alloc, &script) else {
        return no_memory();
    };
    match script_config(alloc, &script, &mut store) {
        Ok((config, told)) => play_site(rt, alloc, script, store, config, &told, gate, out),
        Err(why) => refuse_unconfigured(alloc, why, out),
    }
}

/// Plays the script by the configuration, of which this is told, and the site that its store has by that.
fn play_site<R: Wait, G: Gate, K: Sink>(
    rt: &R,
    alloc: Global,
    script: Script,
    store: PlainStore,
    config: Config,
    told: &Octets,
    gate: &G,
    out: &mut K,
) -> Ending<Scripted>
    requires told { told.now ≡ warnings_of config }
    requires store { store.told ≡ editions_of script }
    ensures kept { IfSome result.left (λ s.
        IsServedRun script config s (K.seen out.old) (K.seen out.new) result.status) }
    ensures opened { (result.status ≡ 0) ⊎ (result.status ≡ 5) → IsSome result.left }
    ensures shown { IsSome result.left → result.shown ≡ None }
    ensures known { IsPlayedStatus result.status ⊎ (result.status ≡ 9) }
    ensures site_refused { result.status ≡ 9 →
        RefusesSite (K.seen out.old) (K.seen out.new) script config result.shown }
    ensures silent { result.status ≡ 6 → IsNone result.left →
        EndsSilently (K.seen out.old) (K.seen out.new) result.shown }
{
    let mut store = store;
    let answer = load_site(alloc, &mut store, &config);
    store.faults();
    let site = match answer {
        Ok(site) => site,
        Err(fault) => return refuse_unloaded(alloc, fault, &config, out),
    };
    let Ok(site) = Arc::new(alloc, site) else {
        return no_memory();
    };
    let edition = LoadedEdition {
        limits: head_limits_of(&config),
        site,
        stop_ms: config.now.stop_ms,
    };
    serve_script(rt, alloc, script, store, config, edition, told, gate, out)
}

/// The end of a run of a script whose site is refused for the fault, or for which memory lacked.
fn refuse_unloaded<K: Sink>(
    alloc: Global,
    fault: LoadFault,
    config: &Config,
    out: &mut K,
) -> Ending<Scripted>
    requires { is_store_fault fault ≡ false }
    ensures known { (result.status ≡ 9) ⊎ (result.status ≡ 6) }
    ensures scripted { IsNone result.left }
    ensures refused { result.status ≡ 9 →
        RefusesLoad (K.seen out.old) (K.seen out.new) config.entry.now fault result.shown }
    ensures silent { result.status ≡ 6 →
        EndsSilently (K.seen out.old) (K.seen out.new) result.shown }
{
    match fault {
        LoadFault::TooMany(root) => refuse_site(alloc, root.as_slice(), out),
        LoadFault::TooLarge(name, _) => refuse_site(alloc, name.as_slice(), out),
        LoadFault::NoMemory => no_memory(),
        LoadFault::StoreFault => unreachable!(),
    }
}

/// The end of a run of a script whose configuration is refused, or for which memory lacked.
fn refuse_unconfigured<K: Sink>(alloc: Global, why: NoConfig, out: &mut K) -> Ending<Scripted>
    requires { IsOfText why }
    ensures known { (result.status ≡ 1) ⊎ (result.status ≡ 6) }
    ensures scripted { IsNone result.left }
    ensures refused { result.status ≡ 1 →
        RefusesConfig (K.seen out.old) (K.seen out.new) why result.shown }
    ensures silent { result.status ≡ 6 →
        EndsSilently (K.seen out.old) (K.seen out.new) result.shown }
{
    match why {
        NoConfig::Refused(why, number) => refuse_config(alloc, why, number, out),
        NoConfig::NoMemory => no_memory(),
        NoConfig::Missing | NoConfig::Failed => unreachable!(),
    }
}

/// The configuration of the script in its store, of which no call was made, and what is told of its corrections.
fn script_config(
    alloc: Global,
    script: &Script,
    store: &mut PlainStore,
) -> Result<(Config, Octets), NoConfig>
    requires { store.old ≡ store_of script.now }
    ensures store { store.new.told ≡ editions_of script.now }
    ensures config { IsScriptConfig script.now result }
{
    editions_have_a_configuration();
    let answer = store.read(alloc, CONF_NAME, MOST_CONFIG);
    config_from(alloc, bytes_alone(answer))
}

/// The bytes of what was read.
fn bytes_alone(answer: Result<Content, StoreFault>) -> Result<Octets, StoreFault>
    ensures { MatchResult answer
        (λ content. result ≡ Ok content.bytes)
        (λ fault. result ≡ Err fault) }
{
    match answer {
        Ok(content) => {
            let Content { bytes, second: _ } = content;
            Ok(bytes)
        }
        Err(fault) => Err(fault),
    }
}

/// Plays the script by the configuration and the edition, over its store, which has its editions, and writes the warnings and the report.
fn serve_script<R: Wait, G: Gate, K: Sink>(
    rt: &R,
    alloc: Global,
    script: Script,
    store: PlainStore,
    config: Config,
    edition: LoadedEdition,
    told: &Octets,
    gate: &G,
    out: &mut K,
) -> Ending<Scripted>
    requires told { told.now ≡ warnings_of config }
    requires store { store.told ≡ editions_of script }
    requires faults { store.counts.faults ≡ 0 }
    requires limits { edition.limits ≡ head_limits_of config }
    requires timeout { edition.stop_ms ≡ config.current.stop_ms }
    ensures kept { IfSome result.left (λ s.
        HasRunScript script config edition.site.value s.board s.front s.clock s.store
        (K.seen out.old) (K.seen out.new) result.status) }
    ensures script { IfSome result.left (λ s. s.front.script ≡ script) }
    ensures config { IfSome result.left (λ s. s.config ≡ config) }
    ensures opened { (result.status ≡ 0) ⊎ (result.status ≡ 5) → IsSome result.left }
    ensures shown { result.shown ≡ None }
    ensures known { IsPlayedStatus result.status }
    ensures silent { IsNone result.left →
        EndsSilently (K.seen out.old) (K.seen out.new) result.shown }
{
    let mut store = store;
    let Ok(mut front) = ScriptFront::make(alloc, script) else {
        return no_memory();
    };
    let mut clock = ScriptClock::make();
    let answer = run_server::<R, PlainStore, ScriptLink, ScriptFront, ScriptClock, G, K, Brand>(
        rt,
        alloc,
        NamedConfig {
            name: CONF_NAME,
            config: &config,
        },
        edition,
        &mut store,
        &mut front,
        &mut clock,
        gate,
        out,
        told.as_slice(),
    );
    front.show();
    clock.show();
    match answer {
        Ok(served) => {
            let ServedRun { board, written } = served;
            let status = report_run(alloc, &board, written, out);
            Ending {
                status,
                shown: None,
                left: Some(Scripted {
                    board,
                    front,
                    clock,
                    store,
                    config,
                }),
            }
        }
        Err(OpenFault::NoMemory) => no_memory(),
        Err(OpenFault::Bind) => unreachable!(),
    }
}
