//! How many command lines a front gave, and how many of them say each of the words.
ghost use Rattle.std.specs.Prelude.{◌≡◌};
ghost use Rattle.mpm_base.specs.Count.{CountsWhere};
ghost use Rattle.mpm_base.specs.GivenWords.{CountsWords, no_words};

use crate::line::Line;

/// How many command lines were given, and how many of them say each of the words. A number that stands at its greatest stays there.
#[derive(Clone, Copy, Debug, PartialEq, Eq)]
pub struct GivenWords {
    /// All of them.
    pub all: u64,
    /// Those that say `graceful`.
    pub graceful: u64,
    /// Those that say `graceful-stop`.
    pub graceful_stop: u64,
    /// Those that say `stop`.
    pub stop: u64,
    /// Those that say `status`.
    pub status: u64,
}

impl GivenWords {
    /// No line was given yet.
    pub fn none() -> GivenWords
        ensures { result ≡ no_words }
    {
        GivenWords {
            all: 0,
            graceful: 0,
            graceful_stop: 0,
            stop: 0,
            status: 0,
        }
    }

    /// Counts the line that was given, where one was.
    pub fn count(&mut self, given: &Option<Line>)
        ensures { CountsWords given.now self.old self.new }
    {
        let Some(line) = given else {
            return;
        };
        let text = line.as_str();
        let graceful = text == "graceful";
        let graceful_stop = text == "graceful-stop";
        let stop = text == "stop";
        let status = text == "status";
        self.all = counted(self.all, true);
        self.graceful = counted(self.graceful, graceful);
        self.graceful_stop = counted(self.graceful_stop, graceful_stop);
        self.stop = counted(self.stop, stop);
        self.status = counted(self.status, status);
    }
}

/// The count, one higher where the test holds.
fn counted(count: u64, holds: bool) -> u64
    ensures { CountsWhere holds count result }
{
    if holds {
        count.saturating_add(1)
    } else {
        count
    }
}
