//! The clock of the system.
ghost use Rattle.std.specs.Prelude.{◌≡◌, ◌≤◌, None, true, is_some, IfSome, max};
ghost use Rattle.std.specs.Duration.{as_nanos};
ghost use Rattle.mpm_base.specs.Clock.{Answers};
ghost use Rattle.mpm_base.specs.Count.{RisesByOne};
ghost use Rattle.mpm_base.specs.Moment.{greatest_moment};
ghost use Rattle.std.specs.Time.{instant_nanos, system_time_nanos};
ghost use Rattle.socket_outside.specs.Moments.{moment_behind, moment_since, clock_answer};

use mpm_base::{Clock, GREATEST_MOMENT, Moment};
use std::marker::Model;
use std::time::{self, Duration, Instant, SystemTime, UNIX_EPOCH};

/// When a clock began: the system's time since 1970, and what the clock that never goes back said then.
#[derive(Clone, Copy)]
pub struct Start {
    since_1970: Duration,
    at: Instant,
}

/// The system's time when it began, and the time that passed since by the clock that never goes back. Copies of it go on from
/// the same start. It tells nothing but how often it was asked; as it never goes back, its last answer is its greatest.
#[derive(Drop)]
pub struct SystemClock<'a, T: time::Clock> {
    time: &'a T,
    start: Option<Start>,
    last: Moment,
    asked: u64,
}

impl<'a, T: time::Clock> Model for SystemClock<'a, T> {
    ghost use Rattle.socket_outside.specs.SeenClock.{SeenClock};

    ghost Value = { SeenClock };

    ghost view = { λ c. record { last = c.last; asked = c.asked } };
}

impl<'a, T: time::Clock> SystemClock<'a, T> {
    /// The clock that begins now. Where the system doesn't say what time it is, no reading of it succeeds.
    pub fn begin(time: &'a T) -> SystemClock<'a, T> {
        SystemClock {
            time,
            start: start_of(time),
            last: 0,
            asked: 0,
        }
    }

    /// Another one of the same start, which answered nothing before this one's last answer.
    pub fn twin(&self) -> SystemClock<'a, T>
        ensures { result ≡ self.now }
    {
        SystemClock {
            time: self.time,
            start: self.start,
            last: self.last,
            asked: self.asked,
        }
    }

    /// The moment that it answered last, or 0.
    pub fn last(&self) -> Moment
        ensures { result ≡ self.now.last }
    {
        self.last
    }

    /// The moment that the system says it is, where it does.
    fn read(&self) -> Option<Moment>
        ensures { IfSome result (λ moment. moment ≤ greatest_moment) }
    {
        let start = self.start?;
        let now = Instant::now(self.time).ok()?;
        Some(moment_at(start, now))
    }
}

/// When a clock begins, where the system says it.
fn start_of<T: time::Clock>(time: &T) -> Option<Start> {
    let started = SystemTime::now(time).ok()?;
    let at = Instant::now(time).ok()?;
    start_from(started, at)
}

/// The start at which the system's time was this, and the clock that never goes back said that.
pub fn start_from(started: SystemTime, at: Instant) -> Option<Start>
    ensures some { is_some result ≡ true }
    ensures is { IfSome result (λ start.
        (as_nanos start.since_1970 ≡ system_time_nanos started) × (start.at ≡ at)) }
{
    let since_1970 = started.duration_since(UNIX_EPOCH).ok()?;
    Some(Start { since_1970, at })
}

/// The moment at which the clock that never goes back says this.
pub fn moment_at(start: Start, now: Instant) -> Moment
    ensures is { result ≡ moment_since
        (as_nanos start.since_1970) (instant_nanos start.at) (instant_nanos now) }
{
    moment_behind(start.since_1970, now.duration_since(start.at))
}

/// The moment so long behind the start.
pub fn moment_behind(start: Duration, since: Duration) -> Moment
    ensures { result ≡ moment_behind (as_nanos start) (as_nanos since) }
{
    match start.checked_add(since) {
        Some(sum) => sum.as_millis().min(GREATEST_MOMENT as u128) as u64,
        None => GREATEST_MOMENT,
    }
}

/// What a clock that answered this moment last answers, where it is told one and reads another or none.
pub fn clock_answer(last: Moment, at: Moment, reading: Option<Moment>) -> Moment
    ensures is { result ≡ clock_answer last at reading }
    ensures never_back { last ≤ result }
{
    match reading {
        Some(moment) => last.max(moment),
        None => last.max(at),
    }
}

impl<'a, T: time::Clock> Clock for SystemClock<'a, T> {
    ghost told = { λ c. None };

    ghost greatest = { λ c. c.last };

    ghost asked = { λ c. c.asked };

    fn now(&mut self, at: Moment) -> Moment
        ensures clock { Answers None None at result }
        ensures most { self.new.last ≡ max self.old.last result }
        ensures asked { RisesByOne self.old.asked self.new.asked }
        ensures never_back { self.old.last ≤ result }
        ensures last { self.new.last ≡ result }
    {
        self.asked = self.asked.saturating_add(1);
        self.last = clock_answer(self.last, at, self.read());
        self.last
    }
}
