//! What a request is served, as plain data.
//! Why it is so stands in docs/DECISIONS.md: 26, What a response takes.
ghost use Rattle.std.specs.Prelude.{◌≡◌};
ghost use Rattle.http_core.specs.Served.{code_of, is_page};

use crate::code::Code;
use mpm_base::Octets;

/// A part of a file of a site: its bytes from one place up to another, which isn't one of them.
#[derive(Clone, Copy)]
pub struct FilePart {
    /// The place of the file in the site.
    pub file: u32,
    /// The first of its bytes that are sent, from 0.
    pub from: u64,
    /// The first behind them.
    pub to: u64,
    /// How many bytes the file has.
    pub size: u64,
}

/// What a request is served.
#[derive(Drop)]
pub enum Served {
    /// The whole file (RFC 9110, section 15.3.1).
    Whole(FilePart),
    /// A range of the file (section 15.3.7).
    Part(FilePart),
    /// A range that a file of so many bytes hasn't (section 15.5.17).
    Unsatisfied(u64),
    /// The client has the file at that place as it is (section 15.4.5).
    Unmodified(u32),
    /// What to ask for instead: the path of the folder, with the query (section 15.4.2).
    Moved(Octets),
    /// The methods that are served (section 9.3.7).
    Options,
    /// The status page: true as plain text, for programs; false as HTML.
    Page(bool),
    /// A refusal by its code.
    Refused(Code),
}

/// The plan of a response.
#[derive(Drop)]
pub struct Plan {
    /// What is served: a file, a part of one, or an answer of the server's own.
    pub served: Served,
    /// The response has no body (RFC 9110, section 9.3.2).
    pub only_head: bool,
    /// The minor number of the version of the request.
    pub minor: u8,
}

impl Served {
    /// Its code.
    pub fn code(&self) -> Code
        ensures { result ≡ code_of self.now }
    {
        match self {
            Served::Whole(_) => Code::Ok,
            Served::Part(_) => Code::PartialContent,
            Served::Unsatisfied(_) => Code::RangeNotSatisfiable,
            Served::Unmodified(_) => Code::NotModified,
            Served::Moved(_) => Code::MovedPermanently,
            Served::Options => Code::Ok,
            Served::Page(_) => Code::Ok,
            Served::Refused(code) => *code,
        }
    }

    /// Whether it is the status page.
    pub fn is_page(&self) -> bool
        ensures { result ≡ is_page self.now }
    {
        matches!(self, Served::Page(_))
    }
}
