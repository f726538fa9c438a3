//! How many answers the senders of the command lines of a front were given.
ghost use Rattle.std.specs.Prelude.{◌≡◌};
ghost use Rattle.mpm_base.specs.GivenAnswers as spec;

/// How many bytes an answer has at most.
pub const MOST_ANSWER: usize = 512;

/// How many answers were given, and how many of these say that a restart was refused. A number that stands at its greatest stays there.
#[derive(Clone, Copy, Debug, PartialEq, Eq)]
pub struct GivenAnswers {
    /// All of them.
    pub all: u64,
    /// Those that say that a restart was refused.
    pub refused: u64,
}

impl GivenAnswers {
    /// No answer was given yet.
    pub fn none() -> GivenAnswers
        ensures { result ≡ spec.no_answers }
    {
        GivenAnswers { all: 0, refused: 0 }
    }

    /// Counts the answer that was given.
    pub fn count(&mut self, text: &[u8])
        ensures { spec.CountsAnswer text.now self.old self.new }
    {
        self.all = self.all.saturating_add(1);
        if says_refused(text) {
            self.refused = self.refused.saturating_add(1);
        }
    }
}

/// Whether the answer says that a restart was refused: it begins with `refused: `.
pub fn says_refused(text: &[u8]) -> bool
    ensures { result ≡ spec.says_refused text.now }
{
    text.starts_with(b"refused: ")
}
