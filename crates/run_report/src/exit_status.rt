//! The exit statuses of the program, as numbers. 0 has a name for each of its meanings.

/// The run of a script or of a server came to its end, and its report was written.
pub const ENDED: u8 = 0;

/// The configuration that was tested is accepted, and that was written.
pub const ACCEPTED: u8 = 0;

/// The command was sent, and what came back was written.
pub const SENT: u8 = 0;

/// The configuration is refused.
pub const MISCONFIGURED: u8 = 1;

/// The words of the command line are no command.
pub const UNKNOWN_WORDS: u8 = 2;

/// The file that the words name is missing or can't be read.
pub const UNREAD: u8 = 3;

/// A call of the front failed.
pub const FRONT_FAILED: u8 = 4;

/// The text can't be written.
pub const UNWRITTEN: u8 = 5;

/// Memory was wanted and not found.
pub const NO_MEMORY: u8 = 6;

/// The script is refused.
pub const REFUSED: u8 = 8;

/// The files of the site are more, or larger, than a site takes.
pub const SITE_REFUSED: u8 = 9;

/// The configuration has no control line.
pub const UNCONTROLLED: u8 = 10;

/// The server refused the restart that the command asks for.
pub const RESTART_REFUSED: u8 = 12;
