//! A front that plays a script, and keeps what the senders of its command lines were answered.
ghost use Rattle.std.specs.Prelude.{◌≡◌, ◌≤◌, length, IfOk, Some};
ghost use Rattle.mpm_base.specs.Front.{Accepts, Answers, Binds, Commands, Dials, Waits, Watches, after_hush, front_after_turning_away};
ghost use Rattle.mpm_base.specs.GivenAnswers.{most_answer};
ghost use Rattle.mpm_base.specs.Link.{telling_link};
ghost use Rattle.script_front.specs.FailingFront.{failing_front_seen};
ghost use Rattle.stand_ins.specs.ScriptLink.{SeenScriptLink};

use mpm_base::{Addr, Arrival, ConnName, Front, Line, Moment, NoMemory, Octets, Ready, Woke};
use script_front::{FailingFront, ScriptBell};
use stand_ins::ScriptLink;
use std::alloc::Global;
use std::sync::Wait;

/// For how many bytes of answers there is room from the start. Those beyond are lost where memory lacks for them.
const ROOM: usize = 4096;

/// A front that plays a script, and what the senders of its command lines were answered, one behind the other.
#[derive(Drop)]
pub struct AnsweredFront {
    pub(crate) front: FailingFront,
    answers: Octets,
}

impl AnsweredFront {
    /// The front, of which nobody was answered.
    pub fn of(alloc: Global, front: FailingFront) -> Result<AnsweredFront, NoMemory>
        ensures { IfOk result (λ f. f.front ≡ front) }
    {
        let mut answers = Octets::make(alloc);
        answers.reserve_exact(ROOM)?;
        Ok(AnsweredFront { front, answers })
    }

    /// The front that plays the script.
    pub fn front(&self) -> &FailingFront {
        &self.front
    }

    /// The answers.
    pub fn answers(&self) -> &[u8] {
        self.answers.as_slice()
    }
}

impl Front for AnsweredFront {
    type L = ScriptLink;

    type B = ScriptBell;

    ghost seen = { λ f. failing_front_seen f.front };

    fn bind(&mut self, listen: Addr, control: Option<u16>) -> bool
        ensures binds { Binds (failing_front_seen self.old.front)
            (failing_front_seen self.new.front) listen control result }
    {
        self.front.bind(listen, control)
    }

    fn wait<R: Wait>(
        &mut self,
        rt: &R,
        until: Option<Moment>,
        quiet: bool,
        ready: &mut Ready,
    ) -> Woke
        ensures waits { Waits (failing_front_seen self.old.front)
            (failing_front_seen self.new.front) until quiet result ready.new }
    {
        self.front.wait(rt, until, quiet, ready)
    }

    fn accept(&mut self) -> Arrival<ScriptLink>
        ensures accepts { Accepts (λ (l : SeenScriptLink). telling_link l.told l.counts)
            (failing_front_seen self.old.front) (failing_front_seen self.new.front) result }
    {
        self.front.accept()
    }

    fn watch(&mut self, name: ConnName, link: &mut ScriptLink) -> bool
        ensures watches { Watches (failing_front_seen self.old.front)
            (failing_front_seen self.new.front) name
            (telling_link link.old.told link.old.counts)
            (telling_link link.new.told link.new.counts) result }
    {
        self.front.watch(name, link)
    }

    fn turn_away(&mut self, link: ScriptLink)
        ensures seen { failing_front_seen self.new.front
            ≡ front_after_turning_away (Some link.told) (failing_front_seen self.old.front) }
    {
        self.front.turn_away(link);
    }

    fn hush(&mut self)
        ensures seen { failing_front_seen self.new.front
            ≡ after_hush (failing_front_seen self.old.front) }
    {
        self.front.hush();
    }

    fn command(&mut self) -> Option<Line>
        ensures commands { Commands (failing_front_seen self.old.front)
            (failing_front_seen self.new.front) result }
    {
        self.front.command()
    }

    /// The answer is kept.
    fn answer(&mut self, text: &[u8])
        requires few { length text.now ≤ most_answer }
        ensures answers { Answers (failing_front_seen self.old.front)
            (failing_front_seen self.new.front) text.now }
    {
        let _ = self.answers.add(text);
        self.front.answer(text);
    }

    fn dial(&mut self, port: u16, word: &str, answer: &mut Octets) -> bool
        ensures dials { Dials (failing_front_seen self.old.front)
            (failing_front_seen self.new.front) port word.now result answer.new }
    {
        self.front.dial(port, word, answer)
    }

    fn bell(&mut self, alloc: Global) -> Result<ScriptBell, NoMemory>
        ensures same { failing_front_seen self.new.front ≡ failing_front_seen self.old.front }
    {
        self.front.bell(alloc)
    }
}
