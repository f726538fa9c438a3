//! The directives of the language, and the names that stand for them.
ghost use Rattle.std.specs.Prelude.{◌≡◌, List, map, find, option_map};
ghost use Rattle.mpm_base.specs.LetterCase.{is_same_ignoring_case};
ghost use Rattle.mpm_config.specs.Directive.{directive_of, directive_among, quantity_name, Name};
ghost use Rattle.mpm_config.specs.DirectiveInside.{name_of};

use mpm_base::is_same_ignoring_case;

/// A directive whose value is a number.
#[derive(Clone, Copy, Debug, PartialEq, Eq)]
pub enum Quantity {
    ServerLimit,
    ThreadLimit,
    StartServers,
    MinSpareThreads,
    MaxSpareThreads,
    ThreadsPerChild,
    MaxRequestWorkers,
    MaxConnectionsPerChild,
    AsyncRequestWorkerFactor,
    Timeout,
    RequestReadTimeout,
    KeepAliveTimeout,
    MaxKeepAliveRequests,
    GracefulShutdownTimeout,
    LimitRequestLine,
    LimitRequestFieldSize,
    LimitRequestFields,
}

/// A directive of the language.
#[derive(Clone, Copy, Debug, PartialEq, Eq)]
pub enum Directive {
    Number(Quantity),
    KeepAlive,
    Listen,
    ControlListen,
    DocumentRoot,
    DirectoryIndex,
    FileETag,
    LastModified,
    AddType,
    MimeTable,
    AddDefaultCharset,
    ServerStatus,
    ServerName,
    ServerAlias,
    TransferLog,
}

/// A name, and the directive that it stands for.
#[derive(Clone, Copy, Debug)]
pub struct Spelling {
    pub name: &'static str,
    pub directive: Directive,
}

/// Every name of the language, the first spelling of a directive before the others.
pub const SPELLINGS: [Spelling; 33] = [
    Spelling {
        name: "ServerLimit",
        directive: Directive::Number(Quantity::ServerLimit),
    },
    Spelling {
        name: "ThreadLimit",
        directive: Directive::Number(Quantity::ThreadLimit),
    },
    Spelling {
        name: "StartServers",
        directive: Directive::Number(Quantity::StartServers),
    },
    Spelling {
        name: "MinSpareThreads",
        directive: Directive::Number(Quantity::MinSpareThreads),
    },
    Spelling {
        name: "MaxSpareThreads",
        directive: Directive::Number(Quantity::MaxSpareThreads),
    },
    Spelling {
        name: "ThreadsPerChild",
        directive: Directive::Number(Quantity::ThreadsPerChild),
    },
    Spelling {
        name: "MaxRequestWorkers",
        directive: Directive::Number(Quantity::MaxRequestWorkers),
    },
    Spelling {
        name: "MaxClients",
        directive: Directive::Number(Quantity::MaxRequestWorkers),
    },
    Spelling {
        name: "MaxConnectionsPerChild",
        directive: Directive::Number(Quantity::MaxConnectionsPerChild),
    },
    Spelling {
        name: "MaxRequestsPerChild",
        directive: Directive::Number(Quantity::MaxConnectionsPerChild),
    },
    Spelling {
        name: "AsyncRequestWorkerFactor",
        directive: Directive::Number(Quantity::AsyncRequestWorkerFactor),
    },
    Spelling {
        name: "Timeout",
        directive: Directive::Number(Quantity::Timeout),
    },
    Spelling {
        name: "RequestReadTimeout",
        directive: Directive::Number(Quantity::RequestReadTimeout),
    },
    Spelling {
        name: "KeepAlive",
        directive: Directive::KeepAlive,
    },
    Spelling {
        name: "KeepAliveTimeout",
        directive: Directive::Number(Quantity::KeepAliveTimeout),
    },
    Spelling {
        name: "MaxKeepAliveRequests",
        directive: Directive::Number(Quantity::MaxKeepAliveRequests),
    },
    Spelling {
        name: "GracefulShutdownTimeout",
        directive: Directive::Number(Quantity::GracefulShutdownTimeout),
    },
    Spelling {
        name: "LimitRequestLine",
        directive: Directive::Number(Quantity::LimitRequestLine),
    },
    Spelling {
        name: "LimitRequestFieldSize",
        directive: Directive::Number(Quantity::LimitRequestFieldSize),
    },
    Spelling {
        name: "LimitRequestFields",
        directive: Directive::Number(Quantity::LimitRequestFields),
    },
    Spelling {
        name: "Listen",
        directive: Directive::Listen,
    },
    Spelling {
        name: "ControlListen",
        directive: Directive::ControlListen,
    },
    Spelling {
        name: "DocumentRoot",
        directive: Directive::DocumentRoot,
    },
    Spelling {
        name: "DirectoryIndex",
        directive: Directive::DirectoryIndex,
    },
    Spelling {
        name: "FileETag",
        directive: Directive::FileETag,
    },
    Spelling {
        name: "LastModified",
        directive: Directive::LastModified,
    },
    Spelling {
        name: "AddType",
        directive: Directive::AddType,
    },
    Spelling {
        name: "MimeTable",
        directive: Directive::MimeTable,
    },
    Spelling {
        name: "AddDefaultCharset",
        directive: Directive::AddDefaultCharset,
    },
    Spelling {
        name: "ServerStatus",
        directive: Directive::ServerStatus,
    },
    Spelling {
        name: "ServerName",
        directive: Directive::ServerName,
    },
    Spelling {
        name: "ServerAlias",
        directive: Directive::ServerAlias,
    },
    Spelling {
        name: "TransferLog",
        directive: Directive::TransferLog,
    },
];

/// The directive of the first of the spellings that is the word.
fn first_among(word: &[u8], spellings: &[Spelling]) -> Option<Directive>
    ensures { result ≡ option_map (λ s. s.directive)
        (find (λ (s : Spelling). is_same_ignoring_case word.now s.name.now) spellings.now) }
{
    let found = spellings.iter().find(|spelling| is_same_ignoring_case(
        word,
        spelling.name.as_bytes(),
    ))?;
    Some(found.directive)
}

/// The same, where the spellings are the code's form of those names.
fn among(word: &[u8], spellings: &[Spelling]) -> Option<Directive>
    ensures { (names : List Name) → map name_of spellings.now ≡ names
        → result ≡ directive_among names word.now }
{
    first_among(word, spellings)
}

/// The directive that a word names.
pub fn named(word: &[u8]) -> Option<Directive>
    ensures { result ≡ directive_of word.now }
{
    among(word, &SPELLINGS)
}

impl Quantity {
    /// The first spelling of its name.
    pub fn name(self) -> &'static str
        ensures { result.now ≡ quantity_name self }
    {
        match self {
            Quantity::ServerLimit => "ServerLimit",
            Quantity::ThreadLimit => "ThreadLimit",
            Quantity::StartServers => "StartServers",
            Quantity::MinSpareThreads => "MinSpareThreads",
            Quantity::MaxSpareThreads => "MaxSpareThreads",
            Quantity::ThreadsPerChild => "ThreadsPerChild",
            Quantity::MaxRequestWorkers => "MaxRequestWorkers",
            Quantity::MaxConnectionsPerChild => "MaxConnectionsPerChild",
            Quantity::AsyncRequestWorkerFactor => "AsyncRequestWorkerFactor",
            Quantity::Timeout => "Timeout",
            Quantity::RequestReadTimeout => "RequestReadTimeout",
            Quantity::KeepAliveTimeout => "KeepAliveTimeout",
            Quantity::MaxKeepAliveRequests => "MaxKeepAliveRequests",
            Quantity::GracefulShutdownTimeout => "GracefulShutdownTimeout",
            Quantity::LimitRequestLine => "LimitRequestLine",
            Quantity::LimitRequestFieldSize => "LimitRequestFieldSize",
            Quantity::LimitRequestFields => "LimitRequestFields",
        }
    }
}
