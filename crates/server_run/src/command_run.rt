//! A command that is sent to a running server: `-k WORD -f FILE`. It loads no files, and writes what the server answers.
//! Why it is so stands in docs/DECISIONS.md: 113, What comes back of a dial.
ghost use Rattle.std.specs.Prelude.{◌≡◌, ℕ, List};
ghost use Rattle.command_words.specs.Invocations.{IsSendWords};
ghost use Rattle.server_run.specs.EndsInside.{EndsSend, ShowsAnswer};
ghost use Rattle.listener_round.specs.Clients.{clients_told, comings_told};
ghost use Rattle.run_opening.specs.Calls.{seen_call};

use mpm_base::{CommandWord, Front, MOST_ANSWER, Octets, Sink, Store, says_refused};
use restart_control::{MOST_CONFIG, spelling};
use run_opening::{
    Ending, config_from, no_memory, refuse_config_of, refuse_front, refuse_uncontrolled, unopened,
};
use run_report::{exit_status, write_all};
use std::alloc::Global;

/// Sends the command to the control port of the configuration of that name in the store, and writes what came back, or why it could not be
/// sent.
pub fn send_command<D: Store, F: Front, K: Sink>(
    alloc: Global,
    command: CommandWord,
    name: &str,
    store: &mut D,
    front: &mut F,
    out: &mut K,
) -> Ending<()>
    ensures clients { clients_told (F.seen front.new).told ≡ clients_told (F.seen front.old).told }
    ensures comings { comings_told (F.seen front.new).told ≡ comings_told (F.seen front.old).told }
    ensures wakes { (F.seen front.new).counts.wakes ≡ (F.seen front.old).counts.wakes }
    ensures ends { (words : List (List ℕ)) → IsSendWords words command name.now → EndsSend
        (seen_call words (D.seen store.old) (D.seen store.new)
        (K.seen out.old) (K.seen out.new) result.shown)
        (F.seen front.old) (F.seen front.new) result.status }
{
    let answer = store.read_bytes(alloc, name, MOST_CONFIG);
    let config = match config_from(alloc, answer) {
        Ok((config, _)) => config,
        Err(why) => return refuse_config_of(alloc, name, why, out),
    };
    config.show();
    let Some(port) = config.control else {
        return refuse_uncontrolled(alloc, out);
    };
    let mut answer = Octets::make(alloc);
    if answer.reserve(MOST_ANSWER).is_err() {
        return no_memory();
    }
    if front.dial(port, spelling(command), &mut answer) {
        unopened(show_answer(answer.as_slice(), out), None)
    } else {
        refuse_front(alloc, out)
    }
}

/// Writes the answer, and gives the exit status for it: that of a restart that was refused, be it written or not; and else whether it was
/// written.
fn show_answer<K: Sink>(answer: &[u8], out: &mut K) -> u8
    ensures { ShowsAnswer (K.seen out.old) (K.seen out.new) answer.now result }
{
    let written = write_all(out, answer);
    if says_refused(answer) {
        exit_status::RESTART_REFUSED
    } else if written {
        exit_status::SENT
    } else {
        exit_status::UNWRITTEN
    }
}
