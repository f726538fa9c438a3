//! The lines of a script, as they were read. Which text is which line stands in `specs/ScriptLine.antt` of `mpm_script`.

use crate::conn::Moment;
use crate::octets::Octets;

/// A call of a link.
#[derive(Clone, Copy, Debug, PartialEq, Eq)]
pub enum LinkCall {
    /// A read.
    Read,
    /// A write.
    Write,
}

/// What a command line asks of the server.
#[derive(Clone, Copy, Debug, PartialEq, Eq)]
pub enum CommandWord {
    /// `graceful`: a new generation takes the place of the one that serves.
    Graceful,
    /// `graceful-stop`: no further connection is taken, and those that are served end.
    GracefulStop,
    /// `stop`: the server stops at once.
    Stop,
    /// `status`: what the server does is told, and nothing changes.
    Status,
}

/// What happens to the link of a connection.
#[derive(Debug, Drop)]
pub enum ClientAct {
    /// `send NAME TEXT`: the client sends these bytes.
    Send(Octets),
    /// `end NAME`: the client sends no more.
    End,
    /// `drop NAME`: every later call of the link but its close fails.
    Drop,
    /// `room NAME NUMBER`: the link takes so many further bytes; `room NAME all`, here None: it takes all.
    Room(Option<u64>),
    /// `fail NAME read NUMBER` and `fail NAME write NUMBER`: the call of that number, from 1, fails.
    Fail(LinkCall, u64),
}

/// What happens to the files of the site.
#[derive(Debug, Drop)]
pub enum SiteLine {
    /// `conf TEXT`: the text and a line feed are put at the end of the configuration.
    Conf(Octets),
    /// `clear`: the configuration is empty.
    Clear,
    /// `file FILE TEXT`: the file has these bytes.
    File(Octets, Octets),
    /// `unfile FILE`: the file is gone.
    Unfile(Octets),
}

/// A line of a script.
#[derive(Debug, Drop)]
pub enum ScriptLine {
    /// `at NUMBER`: the lines behind it happen at this moment.
    At(Moment),
    /// `conn NAME`: a connection of that name arrives.
    Conn(Octets),
    /// This happens to the link of the connection of that name.
    Client(Octets, ClientAct),
    /// `command WORD`: the server is asked this.
    Command(CommandWord),
    /// This happens to the site.
    Site(SiteLine),
}
