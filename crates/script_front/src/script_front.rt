//! The front that plays a script.
ghost use Rattle.std.specs.Prelude.{◌≡◌, ◌<◌, ◌≤◌, ◌&&◌, max, nat_lt, not, true, false, None, Some, [], take, drop, length, is_some, slice_get, slice_set, IfOk, IsOk};
ghost use Rattle.mpm_base.specs.Count.{Rises};
ghost use Rattle.mpm_base.specs.Front.{Accepts, Answers, Binds, Commands, Dials, GoesForward, HasAllTaken, StandsStill, Waits, Watches, accept_failed, after_answer, after_bind, after_command, after_dial, after_hush, after_turning_away, front_after_turning_away, hushed_front, is_handed, next_coming};
ghost use Rattle.mpm_base.specs.GivenAnswers.{most_answer};
ghost use Rattle.mpm_base.specs.Link.{OnlyFaults, telling_link};
ghost use Rattle.mpm_base.specs.declared.front.Woke.TheVariants as woke;
ghost use Rattle.script_front.specs.DuePlacesInside.{AllLook};
ghost use Rattle.script_front.specs.FailingFront.{after_failed_wait, after_failed_watch, told_watch};
ghost use Rattle.script_front.specs.PlayedFrontInside.{KeepsRest, gone_to, waiting_counts, with_begun, with_clients, with_end, with_lines, with_moment, with_wait};
ghost use Rattle.script_front.specs.ScriptFront.{HandsPaced, IsOfScript, Plays, comings_of, front_seen, lines_now, new_front, all_taken_closed, to_come, woken_waits};
ghost use Rattle.script_front.specs.Signals.{Gives, after_watch_of};
ghost use Rattle.stand_ins.specs.ScriptLink.{SeenScriptLink, script_link_after_failed_watch};

use crate::coming_lines::{
    arrivals, commands, earlier, lines_by, lines_now, next_lines, next_moment,
};
use crate::script_bell::ScriptBell;
use crate::script_clients::ScriptClients;
use crate::script_commands::ScriptCommands;
use crate::wait_end::{WaitEnd, WaitingCounts, passed_between};
use crate::watch_end::WatchEnd;
use crate::word_log::log_of;
use http_server::Log;
use mpm_base::{
    Addr, Arrival, ConnName, Front, GivenAnswers, GivenWords, Line, Link, Moment, NoMemory, Octets,
    Ready, ScriptLine, Woke,
};
use mpm_script::{Script, command_line};
use stand_ins::ScriptLink;
use std::alloc::Global;
use std::marker::Model;
use std::sync::Wait;

/// The front that plays a script: connections arrive, send and end, and command lines come, as its lines say, and time goes from
/// moment to moment. No call of it fails.
#[derive(Drop)]
pub struct ScriptFront {
    alloc: Global,
    script: Script,
    happened: usize,
    begun: bool,
    moment: Moment,
    arrived: usize,
    accepted: usize,
    hushed: bool,
    failed: bool,
    clients: ScriptClients,
    commands: ScriptCommands,
    ends: u64,
    words: GivenWords,
    answers: GivenAnswers,
    // Kept for clauses alone: they take no memory.
    binds: Log<Addr, Option<u16>>,
    dials: Log<u16, Log<u8, bool>>,
    watches: Log<u64, WatchEnd>,
    turned_away: Log<u64, ScriptLink>,
    waits: Log<Ready, WaitEnd>,
    answered: Log<usize, Log<u8, bool>>,
}

impl Model for ScriptFront {
    ghost use Rattle.std.specs.Prelude.{◌-◌, Some, length, map, take};
    ghost use Rattle.script_front.specs.ScriptFront.{SeenFront, answer_told, bound_told, comings_of, dial_told, turned_told, wait_told, watch_told};

    ghost Value = { SeenFront };

    ghost use Rattle.mpm_script.specs.Clients.{clients_of};
    ghost use Rattle.mpm_script.specs.Commands.{command_lines_of};
    ghost use Rattle.script_front.specs.PlayedPartsInside.{ArePlayed};

    ghost view = { λ f. record {
      script = f.script;
      happened = f.happened;
      begun = f.begun;
      clients = f.clients.clients;
      names = f.clients.watched;
      told = record {
        clients = clients_of f.script;
        arrived = f.arrived;
        accepted = f.accepted;
        watches = map watch_told f.watches.items;
        turned_away = map turned_told f.turned_away.items;
        lines = command_lines_of (take f.happened f.script);
        read = f.commands.read;
        answers = map answer_told f.answered.items;
        bound = map bound_told f.binds.items;
        dialled = map dial_told f.dials.items;
        hushed = f.hushed;
        left = length f.script - f.happened;
        moment = f.moment;
        comings = Some (comings_of f.script);
        failed = f.failed;
        waits = map wait_told f.waits.items;
      };
      ends = f.ends;
      words = f.words;
      answers = f.answers;
    } };

    ghost invariant = { λ f.
        ArePlayed f.script f.happened f.begun f.moment f.arrived f.accepted f.hushed
        f.clients f.commands f.ends };
}

impl ScriptFront {
    /// The front of the script. No line has happened. A line of the site happens with those around it and does nothing to the front: it
    /// says what the files are, which the store of the script has (`script_store`). A command brings its word as a command line. A line that
    /// names a client means each connection of that name; a script that was read has no two connections of one name.
    pub fn make(alloc: Global, script: Script) -> Result<ScriptFront, NoMemory>
        ensures { IfOk result (λ front. front ≡ new_front script) }
    {
        let clients = ScriptClients::make(alloc, script.lines())?;
        let commands = ScriptCommands::make(alloc, script.lines())?;
        Ok(ScriptFront {
            alloc,
            script,
            happened: 0,
            begun: false,
            moment: 0,
            arrived: 0,
            accepted: 0,
            hushed: false,
            failed: false,
            clients,
            commands,
            ends: 0,
            words: GivenWords::none(),
            answers: GivenAnswers::none(),
            binds: Log::new(),
            dials: Log::new(),
            watches: Log::new(),
            turned_away: Log::new(),
            waits: Log::new(),
            answered: Log::new(),
        })
    }

    /// What holds of every such front.
    pub fn show(&self)
        ensures is { IsOfScript self.now }
        ensures over { 0 < self.now.ends → HasAllTaken self.now.told }
    {
        let _ = &self.script;
    }

    /// The script.
    pub fn script(&self) -> &Script
        ensures { result.now ≡ self.now.script }
    {
        &self.script
    }

    /// How many of its lines have happened.
    pub fn happened(&self) -> usize
        ensures { result ≡ self.now.happened }
    {
        self.happened
    }

    /// The lines that have not happened.
    fn to_come(&self) -> &[ScriptLine]
        ensures { result.now ≡ to_come self.now }
    {
        &self.script.lines()[self.happened..]
    }

    /// So many further lines happen.
    fn pass(&mut self, count: usize)
        requires few { count ≤ self.old.told.left }
        requires next { lines_now (drop count (to_come self.old)) ≡ 0 }
        requires past { next_coming self.old.told.moment
            (comings_of (take count (to_come self.old))) ≡ None }
        ensures { self.new ≡ with_lines count self.old }
    {
        let lines = next_lines(self.script.lines(), self.happened, count);
        self.arrived += arrivals(lines);
        self.commands.come(commands(lines));
        self.clients.happen(lines);
        self.happened += count;
    }

    /// In the first wait the lines before the first `at` happen. Whether any did.
    fn begin(&mut self) -> bool
        ensures begins { result ≡ true → (self.old.begun ≡ false)
            × (0 < lines_now (to_come self.old))
            × (self.new ≡ with_begun (with_lines (lines_now (to_come self.old)) self.old)) }
        ensures goes_on { result ≡ false → (lines_now (to_come self.old) ≡ 0)
            × (self.new ≡ with_begun self.old) }
    {
        if self.begun {
            return false;
        }
        let count = lines_now(self.to_come());
        if count > 0 {
            self.pass(count);
        }
        self.begun = true;
        count > 0
    }

    /// Gives the signals that are due, as far as there is room for them.
    fn signal(&mut self, ready: &mut Ready)
        requires { ready.old ≡ [] }
        ensures gives { Gives 256 self.old.clients self.old.names self.new.clients ready.new }
        ensures state { self.new ≡ with_clients self.new.clients self.old }
    {
        self.clients.give(ready);
    }

    /// Goes on to that moment, and never back. What happens by then happens.
    fn go_to(&mut self, moment: Moment)
        ensures { self.new ≡ gone_to (max self.old.told.moment moment) self.old }
    {
        let to = self.moment.max(moment);
        let count = lines_by(to, self.to_come());
        self.stand_at(to);
        self.pass(count);
    }

    /// Time passes up to that moment.
    fn stand_at(&mut self, moment: Moment)
        requires { self.old.told.moment ≤ moment }
        ensures { self.new ≡ with_moment moment self.old }
    {
        self.moment = moment;
    }

    /// Whether all lines have happened, each command line was read, each connection was handed out or listening was stopped, and
    /// each link that was handed out was found closed.
    fn is_over(&mut self) -> bool
        ensures over { result ≡ true → HasAllTaken self.new.told
            × (all_taken_closed self.new ≡ true) }
        ensures unclosed { result ≡ false → HasAllTaken self.new.told →
            all_taken_closed self.new ≡ false }
        ensures looks { AllLook self.old.clients self.new.clients }
        ensures state { self.new ≡ with_clients self.new.clients self.old }
    {
        self.happened == self.script.lines().len()
            && self.commands.are_read()
            && (self.hushed || self.accepted == self.clients.count())
            && self.clients.find_closed(self.accepted)
    }

    /// Counts a wait that answers Ended.
    fn end(&mut self)
        requires taken { HasAllTaken self.old.told }
        requires begun { self.old.begun ≡ true }
        ensures state { self.new ≡ with_end self.old }
        ensures rises { Rises self.old.ends self.new.ends }
    {
        self.ends = self.ends.saturating_add(1);
    }

    /// Whether time may pass in a wait of that `quiet`: no connection is being served, and no accept failed since the last wait.
    fn may_pass(&self, quiet: bool) -> bool
        ensures { result ≡ (quiet && not self.now.told.failed) }
    {
        quiet && !self.failed
    }

    /// What a wait does and answers.
    fn wake(&mut self, until: Option<Moment>, quiet: bool, ready: &mut Ready) -> Woke
        requires { ready.old ≡ [] }
        ensures plays { Plays self.old self.new until quiet result ready.new }
        ensures rest { KeepsRest result self.old self.new }
        ensures over { 0 < self.old.ends → ready.new ≡ []
            × StandsStill self.old.told self.new.told }
    {
        if self.ends > 0 {
            self.end();
            return Woke::Ended;
        }
        if self.begin() {
            return Woke::Woke(self.moment);
        }
        self.signal(ready);
        if !self.may_pass(quiet) || !ready.slots().is_empty() {
            return Woke::Woke(self.moment);
        }
        let next = earlier(until, next_moment(self.to_come()));
        if let Some(moment) = next {
            self.go_to(moment);
            return Woke::Woke(self.moment);
        }
        if self.is_over() {
            self.end();
            return Woke::Ended;
        }
        Woke::Woke(self.moment)
    }

    /// How many connections and command lines wait to be taken.
    fn waiting(&self) -> WaitingCounts
        ensures { result ≡ waiting_counts self.now }
    {
        WaitingCounts {
            arrivals: self.arrived - self.accepted,
            lines: self.commands.waiting(),
        }
    }

    /// Puts a wait down, with the slots that it gave and how it ended. An accept that failed is forgotten.
    fn put_down(&mut self, ready: &Ready, end: &WaitEnd)
        ensures { self.new ≡ with_wait ready.now end.now self.old }
    {
        self.failed = false;
        self.waits = self.waits.and(ready, end);
    }

    /// A wait fails: it is told, and does nothing else.
    pub(crate) fn fail_wait(
        &mut self,
        until: Option<Moment>,
        quiet: bool,
        ready: &mut Ready,
    ) -> Woke
        ensures failed { result ≡ woke.Failed }
        ensures none { ready.new ≡ [] }
        ensures told { self.new ≡ after_failed_wait until quiet self.old }
        ensures forward { GoesForward until quiet woke.Failed [] self.old.told self.new.told }
        ensures wakes { woken_waits self.new.told.waits ≡ woken_waits self.old.told.waits }
    {
        self.show();
        ready.clear();
        let end = WaitEnd {
            accepted: self.accepted,
            read: self.commands.read(),
            hushed: self.hushed,
            until,
            quiet,
            answer: Woke::Failed,
            passed: None,
        };
        self.put_down(ready, &end);
        Woke::Failed
    }

    /// An accept fails: the next wait lets no time pass.
    pub(crate) fn fail_accept(&mut self)
        ensures { self.new ≡ record self.old { told = record self.old.told { failed = true } } }
    {
        self.failed = true;
    }

    /// Puts a watch of the link down that answered this.
    fn put_down_watch(&mut self, name: ConnName, link: &ScriptLink, answer: bool)
        ensures { self.new ≡ told_watch name link.now.told.rank answer self.old }
    {
        self.watches = self.watches.and(&link.rank(), &WatchEnd { name, answer });
    }

    /// A watch fails, which the link counts: it is told, and does nothing else.
    pub(crate) fn fail_watch(&mut self, name: ConnName, link: &mut ScriptLink)
        ensures front { self.new ≡ after_failed_watch name link.old.told.rank self.old }
        ensures link { link.new ≡ script_link_after_failed_watch link.old }
        ensures faults { OnlyFaults true link.old.counts link.new.counts }
    {
        link.fail_watch();
        self.put_down_watch(name, link, false);
    }
}

impl Front for ScriptFront {
    type L = ScriptLink;

    type B = ScriptBell;

    ghost seen = { λ f. front_seen f };

    /// No call fails.
    fn bind(&mut self, listen: Addr, control: Option<u16>) -> bool
        ensures binds { Binds (front_seen self.old) (front_seen self.new) listen control result }
        ensures sure { result ≡ true }
        ensures rest { self.new
            ≡ record self.old { told = after_bind true listen control self.old.told } }
    {
        self.binds = self.binds.and(&listen, &control);
        true
    }

    /// A signal is due for a watched link where a send, be it of no byte, room or the end came for it, or where it was
    /// dropped, until it is given; none is given in the wait in which that happened, and none of a link that was closed. The
    /// front ends only once each command line was read and each link that was handed out was closed. A moment `until` before
    /// the present one is as the present one.
    fn wait<R: Wait>(
        &mut self,
        rt: &R,
        until: Option<Moment>,
        quiet: bool,
        ready: &mut Ready,
    ) -> Woke
        ensures waits { Waits (front_seen self.old)
            (front_seen self.new) until quiet result ready.new }
        ensures plays { Plays self.old self.new until quiet result ready.new }
    {
        let _ = rt;
        self.show();
        ready.clear();
        let moment = self.moment;
        let waiting = self.waiting();
        let answer = self.wake(until, quiet, ready);
        let end = WaitEnd {
            accepted: self.accepted,
            read: self.commands.read(),
            hushed: self.hushed,
            until,
            quiet,
            answer,
            passed: passed_between(moment, self.moment, waiting),
        };
        self.put_down(ready, &end);
        self.show();
        answer
    }

    fn accept(&mut self) -> Arrival<ScriptLink>
        ensures accepts { Accepts (λ (l : SeenScriptLink). telling_link l.told l.counts)
            (front_seen self.old) (front_seen self.new) result }
        ensures some { is_handed result
            ≡ (not self.old.told.hushed && nat_lt self.old.told.accepted self.old.told.arrived) }
        ensures never { accept_failed result ≡ false }
        ensures link { HandsPaced self.old result }
        ensures rest { self.new ≡ record self.old { told = self.new.told } }
    {
        if self.hushed || self.accepted == self.arrived {
            return Arrival::None;
        }
        match self.clients.next() {
            Some(next) => {
                let rank = self.accepted as u64;
                self.accepted += 1;
                let plan = next.plan;
                Arrival::Some(ScriptLink::paced(
                    self.alloc,
                    rank,
                    plan.text,
                    next.wire,
                    plan.fail_reads,
                    plan.fail_writes,
                    plan.drops,
                ))
            }
            None => unreachable!(),
        }
    }

    /// A signal is due at once where bytes came before, or the end has.
    fn watch(&mut self, name: ConnName, link: &mut ScriptLink) -> bool
        ensures watches { Watches (front_seen self.old) (front_seen self.new) name
            (telling_link link.old.told link.old.counts)
            (telling_link link.new.told link.new.counts) result }
        ensures sure { result ≡ true }
        ensures rest { self.new
            ≡ record self.old {
              clients = after_watch_of link.old.told.rank self.old.clients;
              names = slice_set self.old.names link.old.told.rank (Some name);
              told = self.new.told;
            } }
    {
        self.clients.watch(link.rank() as usize, name);
        self.put_down_watch(name, link, true);
        true
    }

    /// The front finds such a link closed as it finds any other.
    fn turn_away(&mut self, link: ScriptLink)
        ensures seen { front_seen self.new
            ≡ front_after_turning_away (Some link.told) (front_seen self.old) }
        ensures rest { self.new
            ≡ record self.old { told = after_turning_away (Some link.told) self.old.told } }
    {
        let mut link = link;
        link.close();
        self.turned_away = self.turned_away.and(&link.rank(), &link);
    }

    /// No further link is handed out.
    fn hush(&mut self)
        ensures seen { front_seen self.new ≡ after_hush (front_seen self.old) }
        ensures rest { self.new ≡ record self.old { told = hushed_front self.old.told } }
    {
        self.hushed = true;
    }

    /// The word of each command of the script is a line, which comes with the lines around the command.
    fn command(&mut self) -> Option<Line>
        ensures commands { Commands (front_seen self.old) (front_seen self.new) result }
        ensures line { result ≡ slice_get self.old.told.lines self.old.told.read }
        ensures rest { self.new
            ≡ record self.old {
              told = after_command (is_some result) self.old.told;
              words = self.new.words;
            } }
    {
        let word = self.commands.next()?;
        let given = Some(command_line(word));
        self.words.count(&given);
        given
    }

    /// The answer is told, and goes nowhere.
    fn answer(&mut self, text: &[u8])
        requires few { length text.now ≤ most_answer }
        ensures answers { Answers (front_seen self.old) (front_seen self.new) text.now }
        ensures rest { self.new
            ≡ record self.old {
              told = after_answer text.now self.old.told;
              answers = self.new.answers;
            } }
    {
        let told = log_of(text);
        self.answered = self.answered.and(&self.commands.read(), &told);
        self.answers.count(text);
    }

    /// The call does not fail, and nothing comes back.
    fn dial(&mut self, port: u16, word: &str, answer: &mut Octets) -> bool
        ensures dials { Dials (front_seen self.old) (front_seen self.new)
            port word.now result answer.new }
        ensures sure { result ≡ true }
        ensures none { answer.new ≡ [] }
        ensures rest { self.new
            ≡ record self.old { told = after_dial port word.now true [] self.old.told } }
    {
        answer.clear();
        let told = log_of(word.as_bytes());
        self.dials = self.dials.and(&port, &told);
        true
    }

    /// Takes no memory.
    fn bell(&mut self, alloc: Global) -> Result<ScriptBell, NoMemory>
        ensures same { front_seen self.new ≡ front_seen self.old }
        ensures sure { IsOk result }
        ensures rest { self.new ≡ self.old }
    {
        let _ = alloc;
        Ok(ScriptBell)
    }
}
