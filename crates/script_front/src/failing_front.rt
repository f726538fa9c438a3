//! A front that plays a script, and some of whose calls fail.
//! Why it is so stands in docs/DECISIONS.md: 7, The front of a script that fails is a type of its own.
ghost use Rattle.std.specs.Prelude.{◌≡◌, ◌<◌, ◌≤◌, ◌&&◌, nat_lt, not, true, false, Some, [], is_some, length, slice_get, slice_set, if◌then◌else◌, IfOk, IsOk};
ghost use Rattle.mpm_base.specs.Count.{next_count};
ghost use Rattle.mpm_base.specs.Front.{Accepts, Answers, Binds, Commands, Dials, HasAllTaken, Waits, Watches, accept_failed, after_answer, after_bind, after_command, after_dial, after_hush, after_turning_away, front_after_turning_away, hushed_front, is_handed};
ghost use Rattle.mpm_base.specs.GivenAnswers.{most_answer};
ghost use Rattle.mpm_base.specs.Link.{telling_link};
ghost use Rattle.script_front.specs.FailingFront.{PlaysUnlessListed, after_failed_watch, failing_front_seen, new_failing_front, next_accept_fails, next_watch_fails};
ghost use Rattle.script_front.specs.ScriptFront.{HandsPaced, IsOfScript};
ghost use Rattle.script_front.specs.Signals.{after_watch_of};
ghost use Rattle.stand_ins.specs.ScriptLink.{SeenScriptLink, script_link_after_failed_watch};

use crate::script_bell::ScriptBell;
use crate::script_front::ScriptFront;
use mpm_base::{Addr, Arrival, ConnName, Front, Line, Moment, NoMemory, Octets, Ready, Woke};
use mpm_script::Script;
use stand_ins::{Calls, ScriptLink};
use std::alloc::Global;
use std::marker::Model;
use std::sync::Wait;

/// A front that plays a script, and whose listed waits, accepts and watches fail.
#[derive(Drop)]
pub struct FailingFront {
    front: ScriptFront,
    bad_waits: Calls,
    bad_accepts: Calls,
    bad_watches: Calls,
    made_waits: u64,
    made_accepts: u64,
    made_watches: u64,
    failed_waits: u64,
    failed_accepts: u64,
}

impl Model for FailingFront {
    ghost use Rattle.script_front.specs.FailingFront.{SeenFailingFront};

    ghost Value = { SeenFailingFront };

    ghost view = { λ f. record {
      front = f.front;
      fail_waits = f.bad_waits;
      fail_accepts = f.bad_accepts;
      fail_watches = f.bad_watches;
      waits = f.made_waits;
      accepts = f.made_accepts;
      watches = f.made_watches;
      faults = f.failed_waits;
      accept_faults = f.failed_accepts;
    } };

    ghost use Rattle.script_front.specs.FailingFrontInside.{FailOnlyListed};

    ghost invariant = { λ f.
        FailOnlyListed f.bad_waits f.bad_accepts f.failed_waits f.failed_accepts };
}

impl ScriptFront {
    /// A front of the script whose waits, accepts and watches of the listed numbers, from 1, fail. Each call counts, waits among waits,
    /// accepts among accepts and watches among watches, whatever it answers.
    pub fn failing(
        alloc: Global,
        script: Script,
        waits: Calls,
        accepts: Calls,
        watches: Calls,
    ) -> Result<FailingFront, NoMemory>
        ensures { IfOk result (λ front.
            front ≡ new_failing_front script waits accepts watches) }
    {
        let front = ScriptFront::make(alloc, script)?;
        Ok(FailingFront {
            front,
            bad_waits: waits,
            bad_accepts: accepts,
            bad_watches: watches,
            made_waits: 0,
            made_accepts: 0,
            made_watches: 0,
            failed_waits: 0,
            failed_accepts: 0,
        })
    }
}

impl FailingFront {
    /// What holds of every such front. Where the lists are empty none of its calls fails.
    pub fn show(&self)
        ensures is { IsOfScript self.now.front }
        ensures over { 0 < self.now.front.ends → HasAllTaken self.now.front.told }
        ensures waits { self.now.fail_waits ≡ [] → self.now.faults ≡ 0 }
        ensures accepts { self.now.fail_accepts ≡ [] → self.now.accept_faults ≡ 0 }
    {
        self.front.show();
    }

    /// The front without its failures.
    pub fn front(&self) -> &ScriptFront
        ensures { result.now ≡ self.now.front }
    {
        &self.front
    }

    /// How many waits failed.
    pub fn faults(&self) -> u64
        ensures { result ≡ self.now.faults }
    {
        self.failed_waits
    }

    /// How many accepts failed.
    pub fn accept_faults(&self) -> u64
        ensures { result ≡ self.now.accept_faults }
    {
        self.failed_accepts
    }
}

impl Front for FailingFront {
    type L = ScriptLink;

    type B = ScriptBell;

    ghost seen = { λ f. failing_front_seen f };

    /// The call does not fail.
    fn bind(&mut self, listen: Addr, control: Option<u16>) -> bool
        ensures binds { Binds (failing_front_seen self.old)
            (failing_front_seen self.new) listen control result }
        ensures sure { result ≡ true }
        ensures rest { self.new
            ≡ record self.old {
              front =
                  record self.old.front {
                    told = after_bind true listen control self.old.front.told;
                  };
            } }
    {
        self.front.bind(listen, control)
    }

    /// A listed wait fails: no line happens, no slot is given and no time passes in it. The first wait that doesn't fail is the first
    /// one of the front without its failures.
    fn wait<R: Wait>(
        &mut self,
        rt: &R,
        until: Option<Moment>,
        quiet: bool,
        ready: &mut Ready,
    ) -> Woke
        ensures waits { Waits (failing_front_seen self.old)
            (failing_front_seen self.new) until quiet result ready.new }
        ensures plays { PlaysUnlessListed self.old self.new until quiet result ready.new }
    {
        self.made_waits = self.made_waits.saturating_add(1);
        if self.bad_waits.has(self.made_waits) {
            self.failed_waits = self.failed_waits.saturating_add(1);
            return self.front.fail_wait(until, quiet, ready);
        }
        self.front.wait(rt, until, quiet, ready)
    }

    /// A listed accept fails, whatever waits to be taken, and hands nothing out.
    fn accept(&mut self) -> Arrival<ScriptLink>
        ensures accepts { Accepts (λ (l : SeenScriptLink). telling_link l.told l.counts)
            (failing_front_seen self.old) (failing_front_seen self.new) result }
        ensures fails { accept_failed result ≡ next_accept_fails self.old }
        ensures some { is_handed result
            ≡ (not (next_accept_fails self.old) &&
            (not self.old.front.told.hushed
            && nat_lt self.old.front.told.accepted self.old.front.told.arrived)) }
        ensures link { HandsPaced self.old.front result }
        ensures counts { self.new.accept_faults
            ≡ (if next_accept_fails self.old then next_count self.old.accept_faults
            else self.old.accept_faults) }
        ensures rest { self.new
            ≡ record self.old {
              front = record self.old.front { told = self.new.front.told };
              accepts = next_count self.old.accepts;
              accept_faults = self.new.accept_faults;
            } }
    {
        self.made_accepts = self.made_accepts.saturating_add(1);
        if self.bad_accepts.has(self.made_accepts) {
            self.failed_accepts = self.failed_accepts.saturating_add(1);
            self.front.fail_accept();
            return Arrival::Failed;
        }
        self.front.accept()
    }

    /// A listed watch fails, which the link counts: no signal is given for it. Else a signal is due at once where bytes came before, or
    /// the end has.
    fn watch(&mut self, name: ConnName, link: &mut ScriptLink) -> bool
        ensures watches { Watches (failing_front_seen self.old) (failing_front_seen self.new) name
            (telling_link link.old.told link.old.counts)
            (telling_link link.new.told link.new.counts) result }
        ensures fails { result ≡ not (next_watch_fails self.old) }
        ensures refused { next_watch_fails self.old ≡ true →
            (self.new.front ≡ after_failed_watch name link.old.told.rank self.old.front)
            × (link.new ≡ script_link_after_failed_watch link.old) }
        ensures watched { next_watch_fails self.old ≡ false →
            self.new.front
            ≡ record self.old.front {
              clients = after_watch_of link.old.told.rank self.old.front.clients;
              names = slice_set self.old.front.names link.old.told.rank (Some name);
              told = self.new.front.told;
            } }
        ensures rest { self.new
            ≡ record self.old { front = self.new.front; watches = next_count self.old.watches } }
    {
        self.made_watches = self.made_watches.saturating_add(1);
        if self.bad_watches.has(self.made_watches) {
            self.front.fail_watch(name, link);
            return false;
        }
        self.front.watch(name, link)
    }

    /// The front finds such a link closed as it finds any other.
    fn turn_away(&mut self, link: ScriptLink)
        ensures seen { failing_front_seen self.new
            ≡ front_after_turning_away (Some link.told) (failing_front_seen self.old) }
        ensures rest { self.new
            ≡ record self.old {
              front = record self.old.front {
                told = after_turning_away
                    (Some link.told) self.old.front.told;
              };
            } }
    {
        self.front.turn_away(link);
    }

    /// No further link is handed out.
    fn hush(&mut self)
        ensures seen { failing_front_seen self.new ≡ after_hush (failing_front_seen self.old) }
        ensures rest { self.new
            ≡ record self.old {
              front =
                  record self.old.front { told = hushed_front self.old.front.told };
            } }
    {
        self.front.hush();
    }

    /// The word of each command of the script is a line, which comes with the lines around the command.
    fn command(&mut self) -> Option<Line>
        ensures commands { Commands (failing_front_seen self.old)
            (failing_front_seen self.new) result }
        ensures line { result ≡ slice_get self.old.front.told.lines self.old.front.told.read }
        ensures rest { self.new
            ≡ record self.old {
              front = record self.old.front {
                told = after_command
                    (is_some result) self.old.front.told;
                words = self.new.front.words;
              };
            } }
    {
        self.front.command()
    }

    /// The answer is told, and goes nowhere.
    fn answer(&mut self, text: &[u8])
        requires few { length text.now ≤ most_answer }
        ensures answers { Answers (failing_front_seen self.old)
            (failing_front_seen self.new) text.now }
        ensures rest { self.new
            ≡ record self.old {
              front = record self.old.front {
                told = after_answer text.now self.old.front.told;
                answers = self.new.front.answers;
              };
            } }
    {
        self.front.answer(text);
    }

    /// The call does not fail, and nothing comes back.
    fn dial(&mut self, port: u16, word: &str, answer: &mut Octets) -> bool
        ensures dials { Dials (failing_front_seen self.old)
            (failing_front_seen self.new) port word.now result answer.new }
        ensures sure { result ≡ true }
        ensures none { answer.new ≡ [] }
        ensures rest { self.new
            ≡ record self.old {
              front =
                  record self.old.front {
                    told = after_dial port word.now true [] self.old.front.told;
                  };
            } }
    {
        self.front.dial(port, word, answer)
    }

    /// Takes no memory.
    fn bell(&mut self, alloc: Global) -> Result<ScriptBell, NoMemory>
        ensures same { failing_front_seen self.new ≡ failing_front_seen self.old }
        ensures sure { IsOk result }
        ensures rest { self.new ≡ self.old }
    {
        self.front.bell(alloc)
    }
}
