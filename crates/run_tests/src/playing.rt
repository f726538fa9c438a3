//! Plays the runs of the input, one behind the other.
ghost use Rattle.std.specs.Prelude.{IfOk, IfSome};
ghost use Rattle.listener.specs.Unused.{IsUnused};
ghost use Rattle.script_front.specs.FailingFront.{failing_front_seen};

use crate::answered::AnsweredFront;
use crate::case::{Case, View, take_lines};
use crate::given::{Given, given_of, script_of};
use crate::outside::{OpenGate, ShutFront};
use crate::shown::show_run;
use mpm_base::{NoMemory, Octets, Words};
use mpm_run::{Outcome, run};
use mpm_script::{Script, ScriptFault};
use script_front::{ScriptClock, ScriptFront};
use stand_ins::{Calls, ScriptLink};
use std::alloc::Global;
use std::io::{self, ErrorKind};
use std::mem;
use std::sync::Wait;
use std::thread::Threads;
use test_rows::{begin_section, grown, out_of_memory, sections_of};

/// Plays each run of the input behind its title. What stands before the first title is no run.
pub fn play_all<R: Print + Threads + Wait + Sync>(
    rt: &R,
    alloc: Global,
    input: &str,
) -> io::Result<()> {
    for text in sections_of(input) {
        let section = begin_section(rt, text)?;
        play(rt, alloc, section.rows)?;
    }
    Ok(())
}

/// Plays the run of the lines, and shows what came of it.
fn play<R: Print + Threads + Wait + Sync>(rt: &R, alloc: Global, lines: &str) -> io::Result<()> {
    let mut case = Case::make(alloc);
    play_lines(rt, alloc, &mut case, lines)
}

/// Takes what the lines say of the run, and plays it.
fn play_lines<R: Print + Threads + Wait + Sync>(
    rt: &R,
    alloc: Global,
    case: &mut Case,
    lines: &str,
) -> io::Result<()> {
    grown(take_lines(alloc, case, lines))?;
    show_strange(rt, case)?;
    play_case(rt, alloc, case)
}

/// Says where a line of the run says nothing.
fn show_strange(rt: &impl Print, case: &Case) -> io::Result<()> {
    if case.strange {
        return println!(rt; "a line says nothing of a run");
    }
    Ok(())
}

/// Plays the run, and shows what came of it.
fn play_case<R: Print + Threads + Wait + Sync>(
    rt: &R,
    alloc: Global,
    case: &mut Case,
) -> io::Result<()> {
    match script_of(alloc, case) {
        Ok(Some(script)) => play_script(rt, alloc, case, script),
        Ok(None) => play_alone(rt, alloc, case),
        Err(ScriptFault::NoMemory) => Err(out_of_memory()),
        Err(_) => Err(io::Error::from(ErrorKind::InvalidData)),
    }
}

/// Plays the run over a front that plays the script, and shows what came of it.
fn play_script<R: Print + Threads + Wait + Sync>(
    rt: &R,
    alloc: Global,
    case: &mut Case,
    script: Script,
) -> io::Result<()> {
    match front_of(alloc, case, script) {
        Ok(mut front) => play_over(rt, alloc, case, &mut front),
        Err(NoMemory) => Err(out_of_memory()),
    }
}

/// The front that plays the script, whose calls fail as the run says.
fn front_of(alloc: Global, case: &mut Case, script: Script) -> Result<AnsweredFront, NoMemory>
    ensures { IfOk result (λ f. IfSome (failing_front_seen f.front).told IsUnused) }
{
    let waits = mem::replace(&mut case.bad_waits, Calls::make(alloc));
    let accepts = mem::replace(&mut case.bad_accepts, Calls::make(alloc));
    let watches = mem::replace(&mut case.bad_watches, Calls::make(alloc));
    let front = ScriptFront::failing(alloc, script, waits, accepts, watches)?;
    AnsweredFront::of(alloc, front)
}

/// Plays the run over the front, of which no call was made, and shows what came of it.
fn play_over<R: Print + Threads + Wait + Sync>(
    rt: &R,
    alloc: Global,
    case: &mut Case,
    front: &mut AnsweredFront,
) -> io::Result<()>
    requires unused { IfSome (failing_front_seen front.old.front).told IsUnused }
{
    let mut given = grown(given_of(alloc, case))?;
    play_given(rt, alloc, case, &mut given, front)
}

/// The same, over the store and the output.
fn play_given<R: Print + Threads + Wait + Sync>(
    rt: &R,
    alloc: Global,
    case: &Case,
    given: &mut Given,
    front: &mut AnsweredFront,
) -> io::Result<()>
    requires unused { IfSome (failing_front_seen front.old.front).told IsUnused }
{
    let outcome = end_over(rt, alloc, &case.words, given, front);
    show_over(rt, alloc, &outcome, front, given, case.view)
}

/// Shows what came of the run over the front, and what the senders of its command lines were answered.
fn show_over(
    rt: &impl Print,
    alloc: Global,
    outcome: &Outcome<ScriptLink>,
    front: &AnsweredFront,
    given: &Given,
    view: View,
) -> io::Result<()> {
    show_run(rt, alloc, outcome, Some(front.front().front()), given, view)?;
    show_answers(rt, alloc, front, view)
}

/// Shows what the senders of command lines were answered, where that is asked for.
fn show_answers(
    rt: &impl Print,
    alloc: Global,
    front: &AnsweredFront,
    view: View,
) -> io::Result<()> {
    if !view.answers {
        return Ok(());
    }
    let text = String::from_utf8_lossy(alloc, front.answers())?;
    for line in text.lines() {
        println!(rt; "answered {line}")?;
    }
    Ok(())
}

/// Plays the run over a front to which nothing comes, and shows what came of it, and the last dial of the front.
fn play_alone<R: Print + Threads + Wait + Sync>(
    rt: &R,
    alloc: Global,
    case: &mut Case,
) -> io::Result<()> {
    let mut given = grown(given_of(alloc, case))?;
    let back = mem::replace(&mut case.back, Octets::make(alloc));
    let mut front = ShutFront::make(!case.undialled, back);
    play_shut(rt, alloc, case, &mut given, &mut front)
}

/// The same, over the store and the output.
fn play_shut<R: Print + Threads + Wait + Sync>(
    rt: &R,
    alloc: Global,
    case: &Case,
    given: &mut Given,
    front: &mut ShutFront,
) -> io::Result<()> {
    let outcome = end_alone(rt, alloc, &case.words, given, front);
    show_alone(rt, alloc, &outcome, front, given, case.view)
}

/// Shows what came of the run over the front to which nothing comes, and its last dial.
fn show_alone(
    rt: &impl Print,
    alloc: Global,
    outcome: &Outcome<ScriptLink>,
    front: &ShutFront,
    given: &Given,
    view: View,
) -> io::Result<()> {
    show_run(rt, alloc, outcome, None, given, view)?;
    match front.last_dial() {
        Some((port, word)) => println!(rt; "dialled {port} {word}"),
        None => Ok(()),
    }
}

/// How the run over a front that plays a script ends. It answers no clause, so that what `run` says isn't carried through all that
/// follows.
fn end_over<R: Threads + Wait + Sync>(
    rt: &R,
    alloc: Global,
    words: &Words,
    given: &mut Given,
    front: &mut AnsweredFront,
) -> Outcome<ScriptLink>
    requires unused { IfSome (failing_front_seen front.old.front).told IsUnused }
{
    let mut clock = ScriptClock::make();
    run(
        rt,
        alloc,
        words,
        &mut given.store,
        front,
        &mut clock,
        &OpenGate,
        &mut given.out,
    )
}

/// How the run over a front to which nothing comes ends.
fn end_alone<R: Threads + Wait + Sync>(
    rt: &R,
    alloc: Global,
    words: &Words,
    given: &mut Given,
    front: &mut ShutFront,
) -> Outcome<ScriptLink> {
    let mut clock = ScriptClock::make();
    run(
        rt,
        alloc,
        words,
        &mut given.store,
        front,
        &mut clock,
        &OpenGate,
        &mut given.out,
    )
}
