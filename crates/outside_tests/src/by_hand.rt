//! Scripts that are made by hand, line by line.
use mpm_base::{ClientAct, CommandWord, LinkCall, NoMemory, Octets, ScriptLine, SiteLine};
use mpm_script::Script;
use std::alloc::Global;
use test_rows::{number_of, words};

/// The script of these lines, each of which ends with `|`.
pub fn script_by_hand(alloc: Global, row: &str) -> Result<Script, NoMemory> {
    let mut script = Script::make(alloc);
    for text in row.split('|') {
        if !text.is_empty() {
            script.add(line_by_hand(alloc, text)?)?;
        }
    }
    Ok(script)
}

/// The line that the text writes: what is no other line says what a client does.
fn line_by_hand(alloc: Global, text: &str) -> Result<ScriptLine, NoMemory> {
    let (word, rest) = words(text);
    match word {
        "at" => Ok(ScriptLine::At(number_of(rest))),
        "conn" => Ok(ScriptLine::Conn(Octets::of(alloc, rest.as_bytes())?)),
        "command" => Ok(ScriptLine::Command(command_by_hand(rest))),
        "clear" => Ok(ScriptLine::Site(SiteLine::Clear)),
        _ => {
            let (name, behind) = words(rest);
            let act = act_by_hand(alloc, word, behind)?;
            Ok(ScriptLine::Client(Octets::of(alloc, name.as_bytes())?, act))
        }
    }
}

fn command_by_hand(word: &str) -> CommandWord {
    match word {
        "graceful" => CommandWord::Graceful,
        "graceful-stop" => CommandWord::GracefulStop,
        "status" => CommandWord::Status,
        _ => CommandWord::Stop,
    }
}

/// What the word and what stands behind the name say of a client.
fn act_by_hand(alloc: Global, word: &str, behind: &str) -> Result<ClientAct, NoMemory> {
    match word {
        "send" => Ok(ClientAct::Send(Octets::of(alloc, behind.as_bytes())?)),
        "room" => Ok(ClientAct::Room(behind.parse::<u64>().ok())),
        "drop" => Ok(ClientAct::Drop),
        "fail" => {
            let (call, number) = words(behind);
            Ok(ClientAct::Fail(call_by_hand(call), number_of(number)))
        }
        _ => Ok(ClientAct::End),
    }
}

fn call_by_hand(word: &str) -> LinkCall {
    if word == "read" {
        LinkCall::Read
    } else {
        LinkCall::Write
    }
}
