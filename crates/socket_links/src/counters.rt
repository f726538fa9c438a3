//! The counts that a link keeps.
ghost use Rattle.std.specs.Prelude.{◌≡◌, not};
ghost use Rattle.mpm_base.specs.Count.{RisesWhere, RisesExactlyWhere};
ghost use Rattle.mpm_base.specs.Link.{OnlyFaults, read_failed, read_late, found_end, write_failed, write_late};

use mpm_base::{Got, Sent};
use std::marker::Model;

/// Counts of calls of a link that failed, that were not ready, and that found the end.
#[derive(Drop)]
pub(crate) struct LinkCounters {
    failures: u64,
    not_ready_reads: u64,
    not_ready_writes: u64,
    end_reads: u64,
}

impl Model for LinkCounters {
    ghost use Rattle.mpm_base.specs.Link.{LinkCounts};

    ghost Value = { LinkCounts };

    ghost view = { λ c. record {
      faults = c.failures;
      late_reads = c.not_ready_reads;
      late_writes = c.not_ready_writes;
      ends = c.end_reads;
    } };
}

impl LinkCounters {
    /// No call was made.
    pub(crate) fn make() -> LinkCounters
        ensures { result ≡ record { faults = 0; late_reads = 0; late_writes = 0; ends = 0 } }
    {
        LinkCounters {
            failures: 0,
            not_ready_reads: 0,
            not_ready_writes: 0,
            end_reads: 0,
        }
    }

    /// A read answered this.
    pub(crate) fn read(&mut self, answer: Got)
        ensures faults { RisesWhere (read_failed answer) self.old.faults self.new.faults }
        ensures late_reads { RisesExactlyWhere (read_late answer)
            self.old.late_reads self.new.late_reads }
        ensures late_writes { self.new.late_writes ≡ self.old.late_writes }
        ensures ends { RisesExactlyWhere (found_end answer) self.old.ends self.new.ends }
    {
        match answer {
            Got::Got(_) => (),
            Got::End => self.end_reads = self.end_reads.saturating_add(1),
            Got::NotReady => self.not_ready_reads = self.not_ready_reads.saturating_add(1),
            Got::Failed => self.failures = self.failures.saturating_add(1),
        }
    }

    /// A write answered this.
    pub(crate) fn write(&mut self, answer: Sent)
        ensures faults { RisesWhere (write_failed answer) self.old.faults self.new.faults }
        ensures late_reads { self.new.late_reads ≡ self.old.late_reads }
        ensures late_writes { RisesExactlyWhere (write_late answer)
            self.old.late_writes self.new.late_writes }
        ensures ends { self.new.ends ≡ self.old.ends }
    {
        match answer {
            Sent::Put(_) => (),
            Sent::NotReady => self.not_ready_writes = self.not_ready_writes.saturating_add(1),
            Sent::Failed => self.failures = self.failures.saturating_add(1),
        }
    }

    /// A half-close or a watch answered this.
    pub(crate) fn test(&mut self, answer: bool)
        ensures { OnlyFaults (not answer) self.old self.new }
    {
        if !answer {
            self.failures = self.failures.saturating_add(1);
        }
    }
}
