//! A front to which nothing comes, and the gate of the runs.
ghost use Rattle.mpm_base.specs.Count.{Rises};
ghost use Rattle.std.specs.Prelude.{◌≡◌, ◌≤◌, [], false, length};
ghost use Rattle.mpm_base.specs.Front.{Answers, Binds, Dials, Waits};
ghost use Rattle.mpm_base.specs.GivenAnswers.{most_answer};
ghost use Rattle.run_tests.specs.ShutFrontInside.{shut_front_seen};

use mpm_base::{
    Addr, Arrival, Bell, ConnName, Front, Gate, GivenAnswers, Line, Link, MOST_ANSWER, Moment,
    NoMemory, Octets, Ready, Woke,
};
use stand_ins::ScriptLink;
use std::alloc::Global;
use std::sync::Wait;

/// A front that can't be bound, of which each wait fails. It notes its last dial, and tells nothing.
#[derive(Drop)]
pub struct ShutFront {
    answers: bool,
    back: Octets,
    last: Option<(u16, Option<Line>)>,
    faults: u64,
    given: GivenAnswers,
}

impl ShutFront {
    /// A front whose dials are answered with that text, the first 512 bytes of it, or fail.
    pub fn make(answers: bool, back: Octets) -> ShutFront {
        ShutFront {
            answers,
            back,
            last: None,
            faults: 0,
            given: GivenAnswers::none(),
        }
    }

    /// The port of the last dial, and its word.
    pub fn last_dial(&self) -> Option<(u16, &str)> {
        match &self.last {
            Some((port, Some(word))) => Some((*port, word.as_str())),
            _ => None,
        }
    }

    /// Puts what a dial is answered into the room, and nothing where it isn't. Whether it is.
    fn gives_back(&self, answer: &mut Octets) -> bool
        ensures few { length answer.new ≤ most_answer }
        ensures none { result ≡ false → answer.new ≡ [] }
    {
        answer.clear();
        if !self.answers {
            return false;
        }
        let count = self.back.len().min(MOST_ANSWER);
        answer.add(&self.back.as_slice()[..count]).is_ok()
    }

    /// Counts a call that failed.
    fn fail(&mut self)
        ensures rises { Rises self.old.faults self.new.faults }
        ensures given { self.new.given ≡ self.old.given }
    {
        self.faults = self.faults.saturating_add(1);
    }
}

/// A bell that nobody hears.
#[derive(Drop)]
pub struct DeafBell;

impl Bell for DeafBell {
    fn ring(&self) {}
}

impl Front for ShutFront {
    type L = ScriptLink;

    type B = DeafBell;

    ghost seen = { λ f. shut_front_seen f.faults f.given };

    /// The call fails.
    fn bind(&mut self, listen: Addr, control: Option<u16>) -> bool
        ensures binds { Binds (shut_front_seen self.old.faults self.old.given)
            (shut_front_seen self.new.faults self.new.given) listen control result }
    {
        let _ = listen;
        let _ = control;
        self.fail();
        false
    }

    /// The call fails.
    fn wait<R: Wait>(
        &mut self,
        _: &R,
        until: Option<Moment>,
        quiet: bool,
        ready: &mut Ready,
    ) -> Woke
        ensures waits { Waits (shut_front_seen self.old.faults self.old.given)
            (shut_front_seen self.new.faults self.new.given) until quiet result ready.new }
    {
        let _ = until;
        let _ = quiet;
        ready.clear();
        self.fail();
        Woke::Failed
    }

    fn accept(&mut self) -> Arrival<ScriptLink> {
        Arrival::None
    }

    fn watch(&mut self, _: ConnName, _: &mut ScriptLink) -> bool {
        true
    }

    fn turn_away(&mut self, link: ScriptLink) {
        let mut link = link;
        link.close();
    }

    fn hush(&mut self) {}

    fn command(&mut self) -> Option<Line> {
        None
    }

    /// The answer goes nowhere.
    fn answer(&mut self, text: &[u8])
        requires few { length text.now ≤ most_answer }
        ensures answers { Answers (shut_front_seen self.old.faults self.old.given)
            (shut_front_seen self.new.faults self.new.given) text.now }
    {
        self.given.count(text);
    }

    /// The call is noted, and fails where this is a front whose dials fail, or memory lacks for the answer.
    fn dial(&mut self, port: u16, word: &str, answer: &mut Octets) -> bool
        ensures dials { Dials (shut_front_seen self.old.faults self.old.given)
            (shut_front_seen self.new.faults self.new.given) port word.now result answer.new }
    {
        self.last = Some((port, Line::of(word)));
        if self.gives_back(answer) {
            return true;
        }
        self.fail();
        false
    }

    fn bell(&mut self, alloc: Global) -> Result<DeafBell, NoMemory> {
        let _ = alloc;
        Ok(DeafBell)
    }
}

/// A gate that is always open.
#[derive(Clone, Copy)]
pub struct OpenGate;

impl Gate for OpenGate {
    fn enter<R: Wait>(&self, _: &R, _: ConnName) {}
}
