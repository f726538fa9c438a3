//! What an operator may ask of a running server, and what a graceful restart makes of its files.
//!
//! `read_command` reads a command line: exactly one of four words, which stand in `specs/CommandWord.antt` of `mpm_base`, and `spelling`
//! spells one. `reload` goes to the next edition of a store and answers the plan of a new generation, its configuration and its site, or
//! for each refusal its cause (`specs/Reload.antt`). `load_site` makes the site of a configuration, for a server that starts as for one that
//! restarts.
#![tactic(auto)]

ghost use Rattle.std.specs.Prelude.{◌≡◌, ◌≢◌, MatchResult};
ghost use Rattle.mpm_base.specs.CommandWord.{command_word};
ghost use Rattle.mpm_base.specs.declared.script_line.CommandWord.{CommandWord};

mod plan;
mod reading;
mod reload_fault;
mod site_loading;

pub use mpm_base::CommandWord as Command;
pub use plan::{Plan, reload};
pub use reading::MOST_CONFIG;
pub use reload_fault::ReloadFault;
pub use site_loading::load_site;
use thiserror::Error;

/// The line asks for nothing that the server does.
#[derive(Clone, Copy, Debug, PartialEq, Eq, Error)]
#[error("no such command")]
pub struct Unknown;

/// The command that the line asks for: the line is its word, with nothing before or behind it. Unknown where it is no such word.
/// Takes no memory.
pub fn read_command(line: &str) -> Result<Command, Unknown>
    ensures { MatchResult result
        (λ command. line.now ≡ command_word command)
        (λ unknown. (command : CommandWord) → line.now ≢ command_word command) }
{
    match line {
        "graceful" => Ok(Command::Graceful),
        "graceful-stop" => Ok(Command::GracefulStop),
        "stop" => Ok(Command::Stop),
        "status" => Ok(Command::Status),
        _ => Err(Unknown),
    }
}

/// The word of the command, as a command line spells it. Takes no memory.
pub fn spelling(command: Command) -> &'static str
    ensures { result.now ≡ command_word command }
{
    match command {
        Command::Graceful => "graceful",
        Command::GracefulStop => "graceful-stop",
        Command::Stop => "stop",
        Command::Status => "status",
    }
}
