//! What the clauses of `run` come to: four laws above it, which take what `run` ensures of a call (`specs/Outcomes.antt`) and nothing else.
//!
//! - `statuses_are_exact`: each exit status comes exactly where its cause is (`specs/Exact.antt`). That it comes only there is what `run`
//!   says itself (`Causes`; `mpm_run/specs/ExitStatuses.antt`); that it comes there follows, as each other one has a cause that is
//!   contradicted. What the words ask for, and what the files of a store that tells them are, stands in `specs/Grounds.antt`.
//! - `undisturbed_runs_answer_each_request`: where no call of the outside failed, the run wasn't asked to stop, no connection was late and
//!   memory was found, it ends with exit status 0, and each of its connections, folded ones too, was answered whole
//!   (`specs/Undisturbed.antt`).
//! - `no_deadline_stands_in_for_service`: in the run of a script time passes only as a wait of the front let it, and only where each signal
//!   that the front gave with an earlier wait was taken up (`specs/Unhurried.antt`).
//! - `files_are_of_the_chosen_host`: each file that a connection of a run is sent, whole or in part, is one that the host has which its request
//!   is for. Where the store tells its files it is one of those under that host's root, by the hosts of the configuration of the connection's
//!   edition, and no host with another root has it (`specs/ChosenHost.antt`).
//!
//! Each is the contract of a function that does nothing. No program runs them: they say in one place what follows of many clauses, and where
//! a clause were too weak for that they couldn't be proved.
#![tactic(auto)]

ghost use Rattle.run_laws.specs.ChosenHost.{FilesAreOfTheChosenHost};
ghost use Rattle.run_laws.specs.Exact.{StatusesAreExact};
ghost use Rattle.run_laws.specs.Undisturbed.{UndisturbedRunsAnswerEachRequest};
ghost use Rattle.run_laws.specs.Unhurried.{NoDeadlineStandsInForService};

use board::laws::ended_connections_join;
use command_words::laws::words_have_one_form;
use conn_machine::laws_of_runs::{
    folds_are_one_fold, histories_join, made_histories_are_runs, records_open_with_nothing,
};
use conn_state::laws::items_wait_for_nothing;
use file_table::laws::hosts_have_their_files;
use http_core::laws::served_files_are_of_the_chosen_host;
use mpm_script::one_answer;

/// Each exit status comes exactly where its cause is, but that memory may lack before, or a call of the store fail.
pub fn statuses_are_exact()
    ensures { StatusesAreExact }
{
    words_have_one_form();
    one_answer();
}

/// A run that nothing disturbs ends well, and answers each request of each of its connections whole.
pub fn undisturbed_runs_answer_each_request()
    ensures { UndisturbedRunsAnswerEachRequest }
{
    words_have_one_form();
    one_answer();
    ended_connections_join();
    folds_are_one_fold();
    histories_join();
    items_wait_for_nothing();
    made_histories_are_runs();
    records_open_with_nothing();
}

/// In the run of a script time passes only where each signal that was given was taken up, to a moment at which something comes or to a deadline.
pub fn no_deadline_stands_in_for_service()
    ensures { NoDeadlineStandsInForService }
{
    ended_connections_join();
    folds_are_one_fold();
    histories_join();
    items_wait_for_nothing();
    made_histories_are_runs();
    records_open_with_nothing();
}

/// What a request of a connection is sent of a file is of one that its host has, and that no host with another root has: the host that it is for,
/// of those of the configuration of the edition of the connection's generation.
pub fn files_are_of_the_chosen_host()
    ensures { FilesAreOfTheChosenHost }
{
    ended_connections_join();
    hosts_have_their_files();
    served_files_are_of_the_chosen_host();
}
