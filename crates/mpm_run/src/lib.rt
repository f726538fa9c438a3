//! The top call, for all forms of the command line.
//!
//! `run` is the one call that the program makes: it plays a script or a load, serves over the front that it is handed, tests a
//! configuration, or sends a command. What it promises stands in `specs/ExitStatuses.antt`, and in the definitions that this cites:
//!
//! - of a command and its files, `Calls.antt`, `Configured.antt`, `Sites.antt` and `Refusals.antt` of `run_opening`, and `Invocations.antt`
//!   of `command_words`;
//! - of what is answered, `Answers.antt` of `command_answers`, `LineAnswers.antt` and `Heard.antt` of `listener`;
//! - of what is written, `Endings.antt`, `Report.antt`, `Texts.antt` and `Written.antt` of `run_report`;
//! - of a run, `Runs.antt`, `Listen.antt`, `Served.antt`, `Generations.antt`, `Orders.antt`, `Commands.antt`, `Stops.antt`, `Stores.antt`,
//!   `FirstNumbers.antt`, `StartedFirst.antt`, `Outside.antt`, `Unused.antt`, `Watched.antt`, `Links.antt`, `Tells.antt`, `Times.antt`,
//!   `Pace.antt`, `Patient.antt` and `Counted.antt` of `listener`, `AtRest.antt`, `ClosedDown.antt`, `Moments.antt`, `Started.antt` and
//!   `Timely.antt` of `rounds`, and `Backed.antt` of `board`;
//! - of a script, `Scripts.antt`, `Played.antt` and `ScriptRefusals.antt` of `script_run`;
//! - of a server, of the test of a configuration and of a command, `Ends.antt` of `server_run`.
//!
//! Of a run that opened they say this, whatever its exit status. It works by the configuration and the site that the script's lines write,
//! or the store has, and then by the editions of each restart. The history that the board keeps is a run of the connection machine, in the
//! order of its passes, and each state on its way is sound; it begins where the entries that were folded end, which passes made from the
//! opening state on, and of which the record is what one fold makes. What is said of entries and of connections is said of the folded and
//! of the kept ones alike: it was time for each entry; the connections that ended agree with the entries, and waited for what their links
//! lacked; each connection that was taken ended, and each child is gone. As far as the front, the clock and the store tell: where the front
//! waited at all, the children were started before all else; the front was bound once, watched each link that the table took under the name
//! of its connection, and listens no more in the end; each link that it handed out is that of one connection, but for one where memory
//! lacked; what came with a wait was done behind it and before the next one: time passed to the answer of the clock, each slot that was
//! given, of those that the table has, was signalled, each command line that was read was done, and each connection that was handed out was
//! taken, but that the end of that may be missing of the last wait where memory lacked, and its signals where the time of a graceful stop
//! was over; each command line that was read was answered, in order, by what was done for it and by the state behind that; time passed only
//! where nothing was left to be done, over a front that is patient; and where nothing more could come all that was to come was taken.
#![tactic(auto)]

mod outcome;
mod top_call;

pub use outcome::{Outcome, lacks_memory};
pub use run_report::{Tally, report_text, tally};
pub use script_run::Scripted;
pub use top_call::run;
