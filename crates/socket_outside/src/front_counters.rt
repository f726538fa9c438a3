//! The counts that a front keeps.
ghost use Rattle.std.specs.Prelude.{◌≡◌, is_some, not};
ghost use Rattle.mpm_base.specs.Count.{CountsWhere, RisesWhere, RisesExactlyWhere};
ghost use Rattle.mpm_base.specs.Front.{accept_failed, is_handed};
ghost use Rattle.mpm_base.specs.GivenAnswers.{CountsAnswer, no_answers};
ghost use Rattle.mpm_base.specs.GivenWords.{CountsWords, no_words};

use mpm_base::{Arrival, GivenAnswers, GivenWords, Line};
use socket_links::SocketLink;
use std::marker::Model;

/// Counts of binds, waits and dials that failed, of accepts that failed, of waits that gave a moment, of command lines that were given, of
/// answers to their senders, and of links that were handed out. No wait answers that nothing comes any more.
#[derive(Drop)]
pub(crate) struct FrontCounters {
    failures: u64,
    failed_accepts: u64,
    wakes: u64,
    lines: u64,
    words: GivenWords,
    answers: GivenAnswers,
    links: u64,
}

impl Model for FrontCounters {
    ghost use Rattle.mpm_base.specs.Front.{FrontCounts};

    ghost Value = { FrontCounts };

    ghost view = { λ c. record {
      faults = c.failures;
      accept_faults = c.failed_accepts;
      ends = 0;
      wakes = c.wakes;
      commands = c.lines;
      words = c.words;
      answers = c.answers;
      handed = c.links;
    } };
}

impl FrontCounters {
    /// No call was made.
    pub(crate) fn make() -> FrontCounters
        ensures { result
            ≡ record {
              faults = 0;
              accept_faults = 0;
              ends = 0;
              wakes = 0;
              commands = 0;
              words = no_words;
              answers = no_answers;
              handed = 0;
            } }
    {
        FrontCounters {
            failures: 0,
            failed_accepts: 0,
            wakes: 0,
            lines: 0,
            words: GivenWords::none(),
            answers: GivenAnswers::none(),
            links: 0,
        }
    }

    /// A wait gave a moment, or failed.
    pub(crate) fn wait(&mut self, woke: bool)
        ensures others { self.new
            ≡ record self.old { faults = self.new.faults; wakes = self.new.wakes } }
        ensures faults { RisesWhere (not woke) self.old.faults self.new.faults }
        ensures wakes { CountsWhere woke self.old.wakes self.new.wakes }
        ensures never_ended { self.old.ends ≡ 0 }
    {
        if woke {
            self.wakes = self.wakes.saturating_add(1);
        } else {
            self.failures = self.failures.saturating_add(1);
        }
    }

    /// A bind or a dial succeeded, or failed.
    pub(crate) fn test(&mut self, succeeded: bool)
        ensures others { self.new ≡ record self.old { faults = self.new.faults } }
        ensures faults { RisesWhere (not succeeded) self.old.faults self.new.faults }
        ensures never_ended { self.old.ends ≡ 0 }
    {
        if !succeeded {
            self.failures = self.failures.saturating_add(1);
        }
    }

    /// An accept answered this.
    pub(crate) fn accept(&mut self, answer: &Arrival<SocketLink>)
        ensures others { self.new
            ≡ record self.old { accept_faults = self.new.accept_faults; handed = self.new.handed } }
        ensures faults { RisesWhere (accept_failed answer.now)
            self.old.accept_faults self.new.accept_faults }
        ensures handed { CountsWhere (is_handed answer.now) self.old.handed self.new.handed }
    {
        match answer {
            Arrival::Some(_) => self.links = self.links.saturating_add(1),
            Arrival::None => (),
            Arrival::Failed => self.failed_accepts = self.failed_accepts.saturating_add(1),
        }
    }

    /// This command line was given, or none.
    pub(crate) fn command(&mut self, given: &Option<Line>)
        ensures others { self.new
            ≡ record self.old { commands = self.new.commands; words = self.new.words } }
        ensures commands { RisesExactlyWhere (is_some given.now)
            self.old.commands self.new.commands }
        ensures words { CountsWords given.now self.old.words self.new.words }
    {
        if given.is_some() {
            self.lines = self.lines.saturating_add(1);
        }
        self.words.count(given);
    }

    /// The sender of a line was answered with the text.
    pub(crate) fn answer(&mut self, text: &[u8])
        ensures others { self.new ≡ record self.old { answers = self.new.answers } }
        ensures counted { CountsAnswer text.now self.old.answers self.new.answers }
    {
        self.answers.count(text);
    }
}
