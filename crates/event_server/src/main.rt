//! The program: runs the command that its words give, over the current folder, the system's sockets and clock, and standard output,
//! and ends with the run's status. Beside that it says on standard error what whoever runs a server is told.
//!
//! What it promises is what `run` of `mpm_run` does. How the answers of the folder, the sockets, the clock and the output follow from
//! what the system answers stands in `specs/` of `system_outside`, `socket_links` and `socket_outside`. No clause of `run` speaks of standard error.
#![tactic(auto)]

mod start_line;

ghost use Rattle.std.specs.Prelude.{◌≡◌, MatchResult};
ghost use Rattle.std.specs.Process.{exit_status};

use command_words::{Invocation, invocation_of};
use mpm_base::{Link, NoMemory, Words};
use mpm_run::{Outcome, lacks_memory, run};
use socket_links::SocketLink;
use socket_outside::{SocketFront, SystemClock};
use start_line::connections_by;
use std::alloc::Global;
use std::net::Net;
use std::process::ExitCode;
use std::rt::{Env, Files};
use std::sync::Wait;
use std::thread::Threads;
use std::{env, io, time};
use system_outside::{Folder, OpenGate, Operator, Output, words_of};

/// Under how many slots connections are watched: as many as a table has.
const SLOTS: u32 = 8192;

fn main(rt: HostRuntime) -> ExitCode {
    exit_of(outcome_of(&rt))
}

/// How the run of the program's words ends. None begins where memory lacks for the words or for the front.
fn outcome_of<
    R: Alloc<A = Global>
        + Env
        + Files
        + Print
        + Eprint
        + time::Clock
        + Net
        + Threads
        + Wait
        + Sync
        + Clone
        + Drop,
>(rt: &R) -> Result<Outcome<SocketLink>, NoMemory> {
    let alloc = rt.alloc();
    let words = words_of(alloc, env::args(rt))?;
    let operator = operator_of(rt, alloc, &words);
    let mut clock = SystemClock::begin(rt);
    let mut front = SocketFront::make(rt, &operator, alloc, clock.twin(), SLOTS)?;
    let mut folder = Folder::new(rt, &operator, alloc);
    let mut output = Output::new(io::writer(rt));
    Ok(run_over(
        rt,
        alloc,
        &words,
        &mut folder,
        &mut front,
        &mut clock,
        &mut output,
    ))
}

/// How the run of the words over these ends. Nothing is let go here, so that what `run` says isn't carried through the ends of them all.
fn run_over<
    'd,
    'f,
    'c,
    R: Alloc<A = Global>
        + Files
        + Eprint
        + time::Clock
        + Net
        + Threads
        + Wait
        + Sync
        + Clone
        + Drop,
    W: io::Write + Drop,
>(
    rt: &R,
    alloc: Global,
    words: &Words,
    folder: &mut Folder<'d, R>,
    front: &mut SocketFront<'f, R>,
    clock: &mut SystemClock<'c, R>,
    output: &mut Output<W>,
) -> Outcome<SocketLink> {
    run(rt, alloc, words, folder, front, clock, &OpenGate, output)
}

/// Who is told of what the words do: whoever runs a server or sends it a command, and else nobody. The configuration of a server is read
/// once more, before the run reads it, for what the server takes at its start.
fn operator_of<'a, R: Alloc<A = Global> + Files + Eprint + Clone + Drop>(
    rt: &'a R,
    alloc: Global,
    words: &Words,
) -> Operator<'a, R> {
    match invocation_of(alloc, words) {
        Ok(Invocation::Serve(name)) => {
            let nobody = Operator::absent(rt);
            let mut folder = Folder::new(rt, &nobody, alloc);
            Operator::present(rt, connections_by(alloc, name.as_str(), &mut folder))
        }
        Ok(Invocation::Send(..)) => Operator::present(rt, None),
        _ => Operator::absent(rt),
    }
}

/// The process ends with the status of the run, or with that for want of memory where the run could not begin.
fn exit_of<L: Link>(outcome: Result<Outcome<L>, NoMemory>) -> ExitCode
    ensures { MatchResult outcome
        (λ o. exit_status result ≡ o.status)
        (λ _. exit_status result ≡ 6) }
{
    match outcome {
        Ok(outcome) => ExitCode::from(outcome.status),
        Err(NoMemory) => ExitCode::from(lacks_memory::<L>().status),
    }
}
