//! A reader of heads that remembers how far it has looked, so that their end is looked for at each byte once, however they
//! are cut.
ghost use Rattle.std.specs.Prelude.{◌≡◌, ◌+◌, ◌≤◌, ◌<◌, ◌^◌, [], ◌++◌, ◌∷◌, length, take};
ghost use Rattle.http_read.specs.LookedAt.{HasLookedAt};
ghost use Rattle.http_read.specs.ExtentsInside.{IsFeedAt, LooksForEnd, AddsLine, SaysUnended};
ghost use Rattle.http_read.specs.Sizes.{greatest_head};

use crate::lines::line_len;
use crate::request::Limits;
use crate::sizes::GREATEST_HEAD;
use crate::version::{Version, version_at};
use memchr::memchr;

/// Reads the head at the front of bytes that come piece by piece.
#[derive(Clone, Copy)]
pub struct HeadReader {
    pub(crate) limits: Limits,
    /// Where the line that isn't whole begins.
    line: usize,
    /// How many bytes were looked at.
    looked: usize,
    /// The first line is whole.
    begun: bool,
    /// What is to be known of the lines that are whole.
    noted: Noted,
}

/// What is to be known of the lines of a head beside where they end.
#[derive(Clone, Copy)]
pub(crate) struct Noted {
    /// A field line is longer than its limit.
    pub long: bool,
    /// How the version in the first line is read.
    pub version: Version,
}

/// How far the head at the front of the bytes goes.
#[derive(Clone, Copy)]
pub(crate) enum Extent {
    /// The first line is longer than its limit.
    LongLine,
    /// No head ends within the greatest size.
    TooLarge,
    /// More bytes have to come.
    Unended,
    /// It ends behind so many bytes, and this is to be known of its lines.
    Ends(usize, Noted),
}

/// What one more line does.
#[derive(Clone, Copy)]
pub(crate) enum Added {
    /// The head goes on.
    Goes,
    /// The line ends the head.
    Ends,
    /// It is a first line longer than its limit.
    LongLine,
}

/// Where the first line feed stands.
fn find_feed(bytes: &[u8]) -> Option<usize>
    ensures { IsFeedAt bytes.now result }
{
    memchr(b'\n', bytes)
}

impl HeadReader {
    /// A reader that has looked at no byte.
    pub fn new(limits: Limits) -> HeadReader
        ensures looked { HasLookedAt [] result }
        ensures limits { result.limits ≡ limits }
    {
        HeadReader {
            limits,
            line: 0,
            looked: 0,
            begun: false,
            noted: Noted {
                long: false,
                version: Version::Written,
            },
        }
    }

    /// How many bytes it has looked at; it looks for the end of the head at none of them again.
    pub fn looked(&self) -> usize
        ensures { result ≡ self.now.looked }
    {
        self.looked
    }

    /// Takes in a whole line, which stands behind the lines before it.
    fn add_line(&mut self, line: &[u8]) -> Added
        requires { self.old.line + length line.now < 2 ^ 64 }
        ensures { AddsLine self.old line.now result self.new }
    {
        let text = line_len(line);
        if text == 0 {
            return if self.begun { Added::Ends } else { Added::Goes };
        }
        if self.begun {
            self.noted.long = self.noted.long || text > self.limits.field as usize;
        } else if text > self.limits.line as usize {
            return Added::LongLine;
        } else {
            self.begun = true;
            self.noted.version = version_at(self.line, line);
        }
        Added::Goes
    }

    /// Looks at the bytes behind those that it has looked at.
    pub(crate) fn look(&mut self, window: &[u8]) -> Extent
        requires within { self.old.looked ≤ length window.now }
        requires small { length window.now ≤ greatest_head + 1 }
        requires looked { HasLookedAt (take self.old.looked window.now) self.old }
        ensures looks { LooksForEnd self.new.limits window.now result }
        ensures all { result ≡ Extent.Unended → self.new.looked ≡ length window.now }
        ensures limits { self.new.limits ≡ self.old.limits }
        ensures within { self.new.looked ≤ length window.now }
        ensures looked { HasLookedAt (take self.new.looked window.now) self.new }
    {
        while let Some(feed) = find_feed(&window[self.looked..]) {
            let end = self.looked + feed;
            match self.add_line(&window[self.line..end]) {
                Added::Goes => {}
                Added::Ends if end < GREATEST_HEAD => return Extent::Ends(end + 1, self.noted),
                Added::Ends => return Extent::TooLarge,
                Added::LongLine => return Extent::LongLine,
            }
            self.line = end + 1;
            self.looked = end + 1;
        }
        self.looked = window.len();
        self.unended(window.len())
    }

    /// What is to be said of bytes that have no end of a head.
    fn unended(&self, len: usize) -> Extent
        requires { self.now.line ≤ len }
        ensures { SaysUnended self.now len result }
    {
        if !self.begun && len - self.line >= self.limits.line as usize + 2 {
            Extent::LongLine
        } else if len > GREATEST_HEAD {
            Extent::TooLarge
        } else {
            Extent::Unended
        }
    }
}
