//! Events of the machine as rows write them, by the names that they have.
use crate::names::{CAUSES, KINDS, REFUSALS, TAILS, WHYS};
use conn_machine::{BoxedShape, Commanded, Event};
use mpm_base::{Ask, ConnName, NoMemory, Shape};
use std::alloc::Global;
use test_rows::{listed_as, name_of, number_of, small_of, words};

/// The event that the text writes.
pub fn event_of(alloc: Global, text: &str) -> Result<Option<Event>, NoMemory> {
    let (word, rest) = words(text);
    if word == "Graceful" {
        return Ok(Some(restart_to(alloc, shape_of(rest))?));
    }
    Ok(small_event_of(word, rest))
}

/// A restart with this shape.
pub fn restart_to(alloc: Global, shape: Shape) -> Result<Event, NoMemory> {
    let shape = BoxedShape::make(alloc, shape)?;
    Ok(Event::Command(Commanded::Graceful(shape)))
}

/// The event that the words write, where it is no restart.
fn small_event_of(word: &str, rest: &str) -> Option<Event> {
    match word {
        "Accept" => Some(Event::Accept(small_of(rest))),
        "Ready" => Some(Event::Ready(small_of(rest))),
        "Tick" => Some(Event::Tick(number_of(rest))),
        "StartChild" => Some(Event::StartChild(small_of(rest))),
        "Retire" => Some(Event::Retire(small_of(rest))),
        "Refused" | "GracefulStop" | "Stop" => Some(Event::Command(command_of(word, rest)?)),
        _ => event_of_name(word, rest),
    }
}

/// The event of a connection that the words write.
fn event_of_name(word: &str, rest: &str) -> Option<Event> {
    let (name, more) = words(rest);
    let name = name_of(name);
    match word {
        "Park" => Some(Event::Park(name, listed_as(&KINDS, more)?)),
        "Hold" => Some(Event::Hold(name)),
        "Queue" => Some(Event::Queue(name)),
        "Start" => Some(Event::Start(name)),
        "Answer" => Some(Event::Answer(name, ask_of(more))),
        "Linger" => Some(Event::Linger(name, listed_as(&CAUSES, more)?)),
        "Close" => close_of(name, more),
        _ => None,
    }
}

/// The close of the connection of that name, for a cause and with a tail.
fn close_of(name: ConnName, text: &str) -> Option<Event> {
    let (cause, tail) = words(text);
    let cause = listed_as(&CAUSES, cause)?;
    let tail = listed_as(&TAILS, tail)?;
    Some(Event::Close(name, cause, tail))
}

/// The command that the words write, where it is no restart.
fn command_of(word: &str, rest: &str) -> Option<Commanded> {
    match word {
        "Refused" => Some(Commanded::Refused(listed_as(&REFUSALS, rest)?)),
        "GracefulStop" => Some(Commanded::GracefulStop(rest.parse::<u64>().ok())),
        "Stop" => Some(Commanded::Stop(listed_as(&WHYS, rest)?)),
        _ => None,
    }
}

/// What a request asks of the table: a code, and behind it `close` where it asks to close, `refused` where it was refused, and `page`
/// where its response is the status page.
fn ask_of(text: &str) -> Ask {
    let (code, how) = words(text);
    Ask {
        asked_close: has_word(how, "close"),
        refused: has_word(how, "refused"),
        code: code.parse::<u16>().unwrap_or(0),
        page: has_word(how, "page"),
    }
}

/// Whether the word is one of those of the text.
fn has_word(text: &str, word: &str) -> bool {
    for own in text.split(' ') {
        if own == word {
            return true;
        }
    }
    false
}

/// The shape of these eight words, or nine, in the order of its fields, with `on` or `off` for `keep`; or one of two workers where there
/// are none.
pub fn shape_of(text: &str) -> Shape {
    let text = if text.is_empty() {
        "2 200 60000 5000 on 100 1 2"
    } else {
        text
    };
    let (threads, rest) = words(text);
    let (factor, rest) = words(rest);
    let (read_ms, rest) = words(rest);
    let (keep_ms, rest) = words(rest);
    let (keep, rest) = words(rest);
    let (most, rest) = words(rest);
    let (target, rest) = words(rest);
    let (children, whole_ms) = words(rest);
    Shape {
        threads: small_of(threads),
        factor: small_of(factor),
        read_ms: number_of(read_ms),
        keep_ms: number_of(keep_ms),
        keep: keep == "on",
        most: small_of(most),
        target: small_of(target),
        children: small_of(children),
        whole_ms: number_of(whole_ms),
    }
}
