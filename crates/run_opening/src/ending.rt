//! How a command ended.
ghost use Rattle.std.specs.Prelude.{◌≡◌, None, IsNone};

use run_report::exit_status;

/// How a command ended, and what is left of its run, where one opened.
#[derive(Drop)]
pub struct Ending<X> {
    /// The exit status.
    pub status: u8,
    /// The line, from 1, at which the script or the configuration is refused, or the place, from 0, at which the latter is no text; 0 for
    /// its size. 0 where the file is missing.
    pub shown: Option<u64>,
    /// What is left.
    pub left: Option<X>,
}

/// The end of a command whose run did not open, or that has none.
pub fn unopened<X>(status: u8, shown: Option<u64>) -> Ending<X>
    ensures status { result.status ≡ status }
    ensures shown { result.shown ≡ shown }
    ensures left { IsNone result.left }
{
    Ending {
        status,
        shown,
        left: None,
    }
}

/// The end of a command that found no memory: status 6, with nothing shown.
pub fn no_memory<X>() -> Ending<X>
    ensures status { result.status ≡ 6 }
    ensures shown { result.shown ≡ None }
    ensures left { IsNone result.left }
{
    unopened(exit_status::NO_MEMORY, None)
}
