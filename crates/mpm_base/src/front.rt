//! The front: where connections, signals and time come from.

use crate::addr::Addr;
use crate::bell::Bell;
use crate::conn::{ConnName, Moment};
use crate::line::Line;
use crate::link::Link;
use crate::memory::NoMemory;
use crate::octets::Octets;
use crate::ready::Ready;
use std::alloc::Global;
use std::sync::Wait;

/// What a wait of a front answers.
#[derive(Clone, Copy, Debug, PartialEq, Eq)]
pub enum Woke {
    /// It is this moment.
    Woke(Moment),
    /// Nothing comes any more.
    Ended,
    /// The call failed.
    Failed,
}

/// A connection's link that arrived, or why there is none.
#[derive(Debug, Drop)]
pub enum Arrival<L> {
    /// The link of the next connection.
    Some(L),
    /// No connection waits to be taken.
    None,
    /// The call failed.
    Failed,
}

/// Where connections, command lines, signals and time come from.
///
/// What a front tells of itself (`told`) is there only where the object tells it: the front of a script does, one over
/// sockets does not. One that tells does so to its end. Its counts are there for every front.
pub trait Front {
    ghost use Rattle.std.specs.Prelude.{◌≡◌, ◌≤◌, length};
    ghost use Rattle.mpm_base.specs.GivenAnswers.{most_answer};
    ghost use Rattle.mpm_base.specs.Front.{FrontSeen, Accepts, Answers, Binds, Commands, Dials, Waits, Watches, after_hush, front_after_turning_away};

    /// The links that it hands out.
    type L: Link + Send;

    /// Its bells.
    type B: Bell + Send + Sync;

    /// The script that it was made of, which no call changes; what it tells: what has come and what will, what was taken and
    /// turned away, what was answered, and its waits; and its counts of failed binds, waits and dials, of failed accepts, of waits that answered
    /// Ended, of command lines, of those that say each of the words, of answers, and of links that it handed out, none of which ever falls.
    ghost seen: { Self → FrontSeen };

    /// From now on connections are taken at the address, and command lines at the port of this machine, where there is one.
    /// False where the call failed.
    fn bind(&mut self, listen: Addr, control: Option<u16>) -> bool
        ensures binds { Binds (seen self.old) (seen self.new) listen control result };

    /// Waits until something comes, until the moment `until`, or until the bell rings; and gives the slots for which
    /// something came. Where `quiet` is false a connection is being served, and the bell will ring.
    fn wait<R: Wait>(
        &mut self,
        rt: &R,
        until: Option<Moment>,
        quiet: bool,
        ready: &mut Ready,
    ) -> Woke
        ensures waits { Waits (seen self.old) (seen self.new) until quiet result ready.new };

    /// The link of the next connection that arrived and was not taken yet.
    fn accept(&mut self) -> Arrival<Self::L>
        ensures accepts { Accepts Self.L.seen (seen self.old) (seen self.new) result };

    /// From now on the slot of that name is given where something comes for the link, which `accept` handed out. False
    /// where the call failed.
    fn watch(&mut self, name: ConnName, link: &mut Self::L) -> bool
        ensures watches { Watches (seen self.old) (seen self.new) name
            (Self.L.seen link.old) (Self.L.seen link.new) result };

    /// Closes a link that it handed out and that no connection takes.
    fn turn_away(&mut self, link: Self::L)
        ensures { seen self.new
            ≡ front_after_turning_away (Self.L.seen link).told (seen self.old) };

    /// Stops listening: no connection is taken any more.
    fn hush(&mut self)
        ensures { seen self.new ≡ after_hush (seen self.old) };

    /// The next command line that came and was not read yet.
    fn command(&mut self) -> Option<Line>
        ensures commands { Commands (seen self.old) (seen self.new) result };

    /// The sender of the line that `command` gave last gets the text, at most 512 bytes, and then its connection is closed. It takes no
    /// memory and waits for nothing: what isn't taken at once is lost, and so is all where the sender has gone, or was answered before. The
    /// connection of a line that isn't answered is closed when the next line is asked for.
    fn answer(&mut self, text: &[u8])
        requires few { length text.now ≤ most_answer }
        ensures answers { Answers (seen self.old) (seen self.new) text.now };

    /// Sends the word as a command line to the port of this machine, and waits until the server closes. What came back stands in `answer`
    /// then, in place of what it had: at most 512 bytes, and nothing where the call failed. False where it failed.
    fn dial(&mut self, port: u16, word: &str, answer: &mut Octets) -> bool
        ensures dials { Dials (seen self.old) (seen self.new) port word.now result answer.new };

    /// A bell that ends the wait of this front.
    fn bell(&mut self, alloc: Global) -> Result<Self::B, NoMemory>
        ensures same { seen self.new ≡ seen self.old };
}
