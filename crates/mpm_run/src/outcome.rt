//! How a run ended.
//! Why it is so stands in docs/DECISIONS.md: 80, What is left of a configuration.
ghost use Rattle.std.specs.Prelude.{◌≡◌};

use board::Board;
use conn_state::Nothing;
use mpm_base::Link;
use run_opening::Ending;
use run_report::exit_status;
use script_run::Scripted;

/// How a run ended.
#[derive(Drop)]
pub struct Outcome<L: Link> {
    /// The exit status of the process: 0 for a run that came to its end, for a configuration that was tested and is accepted, and for a
    /// command that was sent, 1 for a configuration that is refused, 2 for words that are no command, 3 for a file that can't be read, 4
    /// for a front that failed, 5 for an output that failed, 6 for want of memory, 8 for a script that is refused, 9 for a site that is,
    /// 10 for a configuration without a control line, 12 for a restart that the server refused. 7 and 11 are not used.
    pub status: u8,
    /// The line, from 1, at which the script or the configuration is refused, or the place, from 0, at which the latter is no
    /// text; 0 for its size. 0 where the file is missing.
    pub shown: Option<u64>,
    /// The table of connections of a run over the front, where one opened.
    pub board: Option<Board<L, Nothing>>,
    /// What is left of the run of a script, where one opened.
    pub scripted: Option<Scripted>,
}

/// How a run ended that found no memory to begin.
pub fn lacks_memory<L: Link>() -> Outcome<L>
    ensures { result ≡ record { status = 6; shown = None; board = None; scripted = None } }
{
    Outcome {
        status: exit_status::NO_MEMORY,
        shown: None,
        board: None,
        scripted: None,
    }
}

/// The outcome of a script.
pub(crate) fn scripted_outcome<L: Link>(ending: Ending<Scripted>) -> Outcome<L>
    ensures { result ≡ record {
      status = ending.status;
      shown = ending.shown;
      board = None;
      scripted = ending.left;
    } }
{
    let Ending {
        status,
        shown,
        left,
    } = ending;
    Outcome {
        status,
        shown,
        board: None,
        scripted: left,
    }
}

/// The outcome of a server.
pub(crate) fn served_outcome<L: Link>(ending: Ending<Board<L, Nothing>>) -> Outcome<L>
    ensures { result ≡ record {
      status = ending.status;
      shown = ending.shown;
      board = ending.left;
      scripted = None;
    } }
{
    let Ending {
        status,
        shown,
        left,
    } = ending;
    Outcome {
        status,
        shown,
        board: left,
        scripted: None,
    }
}

/// The outcome of a command that has no run.
pub(crate) fn closed_outcome<L: Link>(ending: Ending<()>) -> Outcome<L>
    ensures { result ≡ record {
      status = ending.status;
      shown = ending.shown;
      board = None;
      scripted = None;
    } }
{
    Outcome {
        status: ending.status,
        shown: ending.shown,
        board: None,
        scripted: None,
    }
}
