//! The top call: from the words of the command line to the texts.
//! Why it is so stands in docs/DECISIONS.md: 91, What a run asks of its front.
ghost use Rattle.std.specs.Prelude.{◌≡◌, [], IfSome};
ghost use Rattle.command_words.specs.Invocations.{CallsFront};
ghost use Rattle.mpm_run.specs.ExitStatuses.{Causes, LeavesAll};
ghost use Rattle.listener.specs.Counted.{AsksOnce, LeavesClock};
ghost use Rattle.listener.specs.Outside.{TellsStill};
ghost use Rattle.listener.specs.Unused.{IsUnused};
ghost use Rattle.run_opening.specs.Calls.{seen_call};

use crate::outcome::{Outcome, closed_outcome, scripted_outcome, served_outcome};
use command_words::{Invocation, NoInvocation, invocation_of};
use mpm_base::{Clock, Front, Gate, Sink, Store, Words};
use run_opening::{no_memory, refuse_words};
use script_run::{run_load, run_script};
use server_run::{send_command, serve_file, test_config};
use std::alloc::Global;
use std::sync::Wait;
use std::thread::Threads;

/// Runs the command that the words give, over the store and the output: `--script FILE` plays the script of that name and `--load N` that
/// of a load of N connections, both by the configuration and the site that the script's own lines write; `-f FILE` serves, over the front
/// and the clock, by the configuration of that name and the site of the store; `-t -f FILE` tests the configuration of that name; and
/// `-k WORD -f FILE` sends the word to the control port of the configuration of that name, and tells what came back.
///
/// All texts go to `out`: the warnings and the report of a run, and between them a line for each command line that asks for the state; what a
/// test found; what a command was answered; or why there is none of these. Each service passes the gate.
pub fn run<R: Threads + Wait + Sync, D: Store, F: Front, C: Clock, G: Gate + Sync, K: Sink>(
    rt: &R,
    alloc: Global,
    words: &Words,
    store: &mut D,
    front: &mut F,
    clock: &mut C,
    gate: &G,
    out: &mut K,
) -> Outcome<F::L>
    // A front that tells was asked nothing yet, nor was a clock that tells.
    requires unused { IfSome (F.seen front.old).told IsUnused }
    requires unasked { IfSome (C.told clock.old) (λ calls. calls ≡ []) }

    // What a call leaves, and why it has its exit status (`specs/ExitStatuses.antt`; `specs/Ends.antt` of `server_run`).
    //
    // What is left of a script's run is of one of the script that was read or made, by the configuration that it writes and the site that
    // it has by that, and then by the editions that its lines make: it closed each connection that it took, each child is gone, and each
    // connection was served by the files, and by the limits of heads, of its generation's edition. A history is folded as it grows: the
    // record is what one fold makes of entries that lead to the kept history, and of connections that they close. What is said of entries
    // and of connections is said of those and of the kept ones alike.
    //
    // Wait by wait, and nothing of it behind the next wait: time passed to what the clock answered, each slot that the front gave was
    // signalled, each command line that was read did what it asks for, and each connection that was handed out was taken. A restart began a
    // generation by the next edition, or was refused, for what that edition lacks, as it came too late, as the store failed, or as memory
    // lacked; and a graceful stop set the limit that the newest generation's configuration says. Its store was renewed at each restart.
    // The sender of each line was answered once, by what was done for it, before the next line was read, and the output has the state for each
    // line that asks for it. Where its server stopped for want of memory the end of the last wait's part may be missing, and the store may
    // have been renewed once more. Where nothing more could come, and no graceful stop was begun, each connection of the script was taken.
    //
    // The same of what is left of a server, as far as its front, its clock and its store tell: it was run by the configuration and the
    // site of the store, and then by the editions that the store has at each restart.
    ensures ends { let call = seen_call words.now (D.seen store.old) (D.seen store.new)
        (K.seen out.old) (K.seen out.new) result.shown in
        LeavesAll call (F.seen front.old) (F.seen front.new) (C.told clock.old) (C.told clock.new)
        result.status result.scripted result.board
        × Causes call (F.seen front.old) (F.seen front.new)
        result.status result.scripted result.board }

    // Whatever became of them, a front and a clock that told tell still.
    ensures telling { TellsStill (F.seen front.old) (F.seen front.new)
        (C.told clock.old) (C.told clock.new) }

    // Over each clock, whether it tells or not, the moment of a server is its greatest answer (`specs/Counted.antt` of `listener`).
    ensures clocked { LeavesClock result.board (C.greatest clock.old) (C.greatest clock.new) }

    // Over each front and clock the clock is asked once for each wait that gave a moment, in every form.
    ensures asked { AsksOnce (F.seen front.old).counts.wakes (F.seen front.new).counts.wakes
        (C.asked clock.old) (C.asked clock.new) }

    // Other words than those that serve or send a command leave the front and the clock as they were.
    ensures unmoved { ¬ CallsFront words.now →
        (F.seen front.new ≡ F.seen front.old) × (C.told clock.new ≡ C.told clock.old) }
{
    match invocation_of(alloc, words) {
        Ok(Invocation::Script(name)) => {
            scripted_outcome(run_script(rt, alloc, &name, store, gate, out))
        }
        Ok(Invocation::Load(count)) => scripted_outcome(run_load(rt, alloc, count, gate, out)),
        Ok(Invocation::Serve(name)) => {
            served_outcome(serve_file(rt, alloc, &name, store, front, clock, gate, out))
        }
        Ok(Invocation::Test(name)) => closed_outcome(test_config(alloc, &name, store, out)),
        Ok(Invocation::Send(word, name)) => {
            closed_outcome(send_command(alloc, word, &name, store, front, out))
        }
        Err(NoInvocation::Unknown) => closed_outcome(refuse_words(alloc, out)),
        Err(NoInvocation::NoMemory) => closed_outcome(no_memory()),
    }
}
