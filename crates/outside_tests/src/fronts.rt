//! Fronts that play a script, call by call. A call whose contract is long stands in a function without any, so that its clauses
//! aren't carried through what is shown.
use crate::by_hand::script_by_hand;
use crate::calls::calls_of;
use crate::links::show_link_call;
use mpm_base::{
    Addr, Arrival, Bell, ConnName, Front, Line, MOST_ANSWER, Moment, NoMemory, Octets, Ready, Woke,
};
use script_front::{FailingFront, ScriptBell, ScriptFront};
use stand_ins::ScriptLink;
use std::alloc::Global;
use std::sync::Wait;
use test_rows::{Sheet, small_of, words};

/// A front, the slots of its last wait, and the links that it handed out and that weren't turned away.
#[derive(Drop)]
struct Play {
    front: FailingFront,
    ready: Ready,
    links: Vec<ScriptLink>,
}

/// Shows what a front of the script in the first row answers to each call. The calls of these lists fail: the numbers of the waits, a
/// semicolon, those of the accepts, and perhaps a further one and those of the watches.
pub fn show_front<R: Wait>(
    sheet: &mut Sheet,
    rt: &R,
    alloc: Global,
    lists: &str,
    rows: &str,
) -> Result<(), NoMemory> {
    let (script, calls) = rows.split_once('\n').unwrap_or((rows, ""));
    let mut play = play_of(alloc, script, lists)?;
    show_calls(sheet, rt, alloc, &mut play, calls)
}

/// Shows each call, and what is answered to it.
fn show_calls<R: Wait>(
    sheet: &mut Sheet,
    rt: &R,
    alloc: Global,
    play: &mut Play,
    calls: &str,
) -> Result<(), NoMemory> {
    for call in calls.lines() {
        print!(sheet; "{call} => ");
        show_call(sheet, rt, alloc, play, call)?;
    }
    Ok(())
}

/// A front of the script, of which no line has happened, and whose listed calls fail.
fn play_of(alloc: Global, row: &str, lists: &str) -> Result<Play, NoMemory> {
    let ready = Ready::make(alloc)?;
    let front = front_of(alloc, row, lists)?;
    Ok(Play {
        front,
        ready,
        links: Vec::new(alloc),
    })
}

fn front_of(alloc: Global, row: &str, lists: &str) -> Result<FailingFront, NoMemory> {
    let script = script_by_hand(alloc, row)?;
    let mut parts = lists.split(';');
    let bad_waits = calls_of(alloc, parts.next().unwrap_or(""))?;
    let bad_accepts = calls_of(alloc, parts.next().unwrap_or(""))?;
    let bad_watches = calls_of(alloc, parts.next().unwrap_or(""))?;
    ScriptFront::failing(alloc, script, bad_waits, bad_accepts, bad_watches)
}

/// Shows what the front, or one of its links, answers to the call.
fn show_call<R: Wait>(
    sheet: &mut Sheet,
    rt: &R,
    alloc: Global,
    play: &mut Play,
    call: &str,
) -> Result<(), NoMemory> {
    let (word, rest) = words(call);
    match word {
        "accept" => return show_accept(sheet, play),
        "all" => return show_all(sheet, play),
        "bell" => return show_bell(sheet, alloc, play),
        "wait" => show_wait(sheet, rt, play, rest),
        "dial" => show_dial(sheet, alloc, play, rest),
        _ => show_plain_call(sheet, play, word, rest),
    }
    Ok(())
}

/// The same of a call that takes no memory and waits for nothing.
fn show_plain_call(sheet: &mut Sheet, play: &mut Play, word: &str, rest: &str) {
    match word {
        "turn" => show_turn(sheet, play),
        "watch" => show_watch(sheet, play, rest),
        "bind" | "hush" => show_told(sheet, play, word),
        "command" => show_command(sheet, play),
        "faults" => show_faults(sheet, play),
        "answer" => show_answer(sheet, play, rest),
        _ => show_link_call(sheet, play.links.as_mut_slice(), word, rest),
    }
}

/// Shows the answer of a wait, the slots that it gave, and how many lines of the script have happened.
fn show_wait<R: Wait>(sheet: &mut Sheet, rt: &R, play: &mut Play, rest: &str) {
    let (moment, word) = words(rest);
    let woke = woken(rt, play, moment.parse::<Moment>().ok(), word == "quiet");
    print!(sheet; "{woke:?} {:?}, ", play.ready.slots());
    let front = play.front.front();
    println!(sheet;
        "{} of {} lines",
        front.happened(),
        front.script().lines().len()
    );
}

fn woken<R: Wait>(rt: &R, play: &mut Play, until: Option<Moment>, quiet: bool) -> Woke {
    play.front.wait(rt, until, quiet, &mut play.ready)
}

/// What an accept was answered with.
#[derive(Clone, Copy)]
enum Taken {
    Link,
    None,
    Failed,
}

/// Takes the next link, and keeps it.
fn take(play: &mut Play) -> Result<Taken, NoMemory> {
    match play.front.accept() {
        Arrival::Some(link) => keep(&mut play.links, link),
        Arrival::None => Ok(Taken::None),
        Arrival::Failed => Ok(Taken::Failed),
    }
}

/// Keeps the link behind those that are there.
fn keep(links: &mut Vec<ScriptLink>, link: ScriptLink) -> Result<Taken, NoMemory> {
    match links.push(link) {
        Ok(()) => Ok(Taken::Link),
        Err(_) => Err(NoMemory),
    }
}

fn show_accept(sheet: &mut Sheet, play: &mut Play) -> Result<(), NoMemory> {
    let number = play.links.len();
    match take(play)? {
        Taken::Link => println!(sheet; "link {number}"),
        Taken::None => sheet.print("none\n"),
        Taken::Failed => sheet.print("failed\n"),
    }
    Ok(())
}

fn show_turn(sheet: &mut Sheet, play: &mut Play) {
    match play.links.pop() {
        Some(link) => {
            turn(play, link);
            sheet.print("done\n");
        }
        None => sheet.print("there is no such link\n"),
    }
}

fn turn(play: &mut Play, link: ScriptLink) {
    play.front.turn_away(link);
}

fn show_watch(sheet: &mut Sheet, play: &mut Play, rest: &str) {
    let (number, slot) = words(rest);
    let is = is_watched(play, small_of(number) as usize, small_of(slot));
    println!(sheet; "{is}");
}

/// Whether the link of that number is watched now.
fn is_watched(play: &mut Play, number: usize, slot: u32) -> bool {
    match play.links.get_mut(number) {
        Some(link) => play.front.watch(ConnName { slot, life: 0 }, link),
        None => false,
    }
}

/// Takes each link that waits and watches it. No accept is to fail.
fn show_all(sheet: &mut Sheet, play: &mut Play) -> Result<(), NoMemory> {
    for slot in 0..u32::MAX {
        let number = play.links.len();
        match take(play)? {
            Taken::Link if is_watched(play, number, slot) => (),
            Taken::Link => {
                println!(sheet; "link {number} isn't watched");
                return Ok(());
            }
            Taken::None => {
                println!(sheet; "{slot} links");
                return Ok(());
            }
            Taken::Failed => {
                println!(sheet; "accept {slot} failed");
                return Ok(());
            }
        }
    }
    Ok(())
}

/// Tells the front to listen or to stop it.
fn show_told(sheet: &mut Sheet, play: &mut Play, word: &str) {
    if word == "bind" {
        let is = is_bound(play);
        println!(sheet; "{is}");
    } else {
        hush(play);
        sheet.print("done\n");
    }
}

fn is_bound(play: &mut Play) -> bool {
    let listen = Addr {
        host: [127, 0, 0, 1],
        port: 80,
    };
    play.front.bind(listen, Some(8080))
}

fn hush(play: &mut Play) {
    play.front.hush();
}

/// Reads the next command line.
fn show_command(sheet: &mut Sheet, play: &mut Play) {
    match next_command(play) {
        Some(line) => println!(sheet; "{}", line.as_str()),
        None => sheet.print("none\n"),
    }
}

fn next_command(play: &mut Play) -> Option<Line> {
    play.front.command()
}

/// Shows how many waits and how many accepts failed.
fn show_faults(sheet: &mut Sheet, play: &Play) {
    println!(sheet;
        "{} waits, {} accepts",
        play.front.faults(),
        play.front.accept_faults()
    );
}

/// Answers the line that was read last.
fn show_answer(sheet: &mut Sheet, play: &mut Play, text: &str) {
    answer(play, text);
    sheet.print("done\n");
}

fn answer(play: &mut Play, text: &str) {
    if text.len() <= MOST_ANSWER {
        play.front.answer(text.as_bytes());
    }
}

/// Shows the answer of a dial, and how many bytes came back.
fn show_dial(sheet: &mut Sheet, alloc: Global, play: &mut Play, rest: &str) {
    let (port, word) = words(rest);
    let mut came = Octets::make(alloc);
    let dialled = is_dialled(play, port.parse::<u16>().unwrap_or(0), word, &mut came);
    println!(sheet; "{dialled}, {} bytes", came.len());
}

fn is_dialled(play: &mut Play, port: u16, word: &str, came: &mut Octets) -> bool {
    play.front.dial(port, word, came)
}

/// Makes a bell of the front and rings it.
fn show_bell(sheet: &mut Sheet, alloc: Global, play: &mut Play) -> Result<(), NoMemory> {
    let bell = bell_of(alloc, play)?;
    bell.ring();
    sheet.print("done\n");
    Ok(())
}

fn bell_of(alloc: Global, play: &mut Play) -> Result<ScriptBell, NoMemory> {
    play.front.bell(alloc)
}
