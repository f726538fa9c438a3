//! Values under the names by which rows write them, each list in the order in which numbers ask for them.
use conn_machine::{Phase, Refusal, Why};
use mpm_base::{Cause, Kind, Tail};

/// What a connection waits for.
pub const KINDS: [(&str, Kind); 5] = [
    ("Reading", Kind::Reading),
    ("KeepAlive", Kind::KeepAlive),
    ("Writing", Kind::Writing),
    ("Linger", Kind::Linger),
    ("ShortLinger", Kind::ShortLinger),
];

/// Why the service of a connection ended.
pub const CAUSES: [(&str, Cause); 9] = [
    ("ClientDone", Cause::ClientDone),
    ("LastSent", Cause::LastSent),
    ("KeepAliveLate", Cause::KeepAliveLate),
    ("ReadLate", Cause::ReadLate),
    ("WriteLate", Cause::WriteLate),
    ("Retiring", Cause::Retiring),
    ("LinkFailed", Cause::LinkFailed),
    ("Stopped", Cause::Stopped),
    ("NoMemory", Cause::NoMemory),
];

/// How a link was left.
pub const TAILS: [(&str, Tail); 7] = [
    ("Direct", Tail::Direct),
    ("Drained", Tail::Drained),
    ("Sated", Tail::Sated),
    ("Late", Tail::Late),
    ("Failed", Tail::Failed),
    ("Halted", Tail::Halted),
    ("NoMemory", Tail::NoMemory),
];

/// What a worker is at.
pub const PHASES: [(&str, Phase); 3] = [
    ("Read", Phase::Read),
    ("Write", Phase::Write),
    ("Close", Phase::Close),
];

/// Why a `graceful` changed nothing.
pub const REFUSALS: [(&str, Refusal); 6] = [
    ("Late", Refusal::Late),
    ("Absent", Refusal::Absent),
    ("Conf", Refusal::Conf),
    ("Site", Refusal::Site),
    ("Store", Refusal::Store),
    ("NoMemory", Refusal::NoMemory),
];

/// Why the server stopped.
pub const WHYS: [(&str, Why); 5] = [
    ("Asked", Why::Asked),
    ("Overdue", Why::Overdue),
    ("FrontEnded", Why::FrontEnded),
    ("FrontFailed", Why::FrontFailed),
    ("NoMemory", Why::NoMemory),
];
