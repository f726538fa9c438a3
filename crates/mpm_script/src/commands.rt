//! The command line that a command of a script brings.
ghost use Rattle.std.specs.Prelude.{◌≡◌};
ghost use Rattle.mpm_base.specs.CommandWord.{command_word};

use mpm_base::{CommandWord, Line};

/// The command line that the command brings.
pub fn command_line(word: CommandWord) -> Line
    ensures { result ≡ command_word word }
{
    match Line::of(text_of(word)) {
        Some(line) => line,
        None => unreachable!(),
    }
}

fn text_of(word: CommandWord) -> &'static str
    ensures { result.now ≡ command_word word }
{
    match word {
        CommandWord::Graceful => "graceful",
        CommandWord::GracefulStop => "graceful-stop",
        CommandWord::Stop => "stop",
        CommandWord::Status => "status",
    }
}
