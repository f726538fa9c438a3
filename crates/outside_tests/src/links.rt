//! What links answer and keep.
use crate::calls::calls_of;
use mpm_base::{Got, Link, LinkCall, NoMemory, Octets};
use stand_ins::{Calls, PlainLink, ScriptLink, Wire};
use std::alloc::Global;
use std::str::Lines;
use std::sync::Arc;
use test_rows::{Marks, Sheet, number_of, small_of, text_of, words};

/// A link that can be shown.
trait Shown {
    /// Shows what the link says of itself.
    fn show(&self, sheet: &mut Sheet);
}

impl Shown for PlainLink {
    fn show(&self, sheet: &mut Sheet) {
        sheet.bytes("left", self.left());
        sheet.bytes(", received", self.received());
        sheet.bytes(", before shut", self.before_shut());
        sheet.bytes(", sent", self.sent());
        println!(sheet;
            ", rank {}, {} shuts, {} closes",
            self.rank(),
            self.shuts(),
            self.closes()
        );
    }
}

impl Shown for ScriptLink {
    fn show(&self, sheet: &mut Sheet) {
        sheet.bytes("left", self.left());
        sheet.bytes(", received", self.received());
        sheet.bytes(", sent", self.sent());
        println!(sheet;
            ", rank {}, {} shuts, {} closes, {} faults",
            self.rank(),
            self.shuts(),
            self.closes(),
            self.faults()
        );
    }
}

/// What a link is made of.
#[derive(Drop)]
struct Parts {
    coming: Octets,
    rank: u64,
    ends: bool,
    reads: Calls,
    writes: Calls,
    drops: bool,
}

/// What the first five rows say.
fn parts_of(alloc: Global, rows: &mut Lines<'_>) -> Result<Parts, NoMemory> {
    let coming = text_of(alloc, rows.next().unwrap_or(""), Marks::Lines)?;
    let (number, ends) = words(rows.next().unwrap_or(""));
    let reads = calls_of(alloc, rows.next().unwrap_or(""))?;
    let writes = calls_of(alloc, rows.next().unwrap_or(""))?;
    Ok(Parts {
        coming,
        rank: number_of(number),
        ends: ends == "ends",
        reads,
        writes,
        drops: rows.next().unwrap_or("") == "drops",
    })
}

/// Shows what a link of that kind answers to each call.
pub fn show_link(sheet: &mut Sheet, alloc: Global, kind: &str, rows: &str) -> Result<(), NoMemory> {
    let mut calls = rows.lines();
    let parts = parts_of(alloc, &mut calls)?;
    match kind {
        "plain" => {
            show_plain(sheet, alloc, parts, calls);
            Ok(())
        }
        "listed" => {
            show_listed(sheet, alloc, parts, calls);
            Ok(())
        }
        _ => show_paced(sheet, alloc, parts, calls),
    }
}

/// Shows what a plain link of these parts answers to each call.
fn show_plain(sheet: &mut Sheet, alloc: Global, parts: Parts, calls: Lines<'_>) {
    let mut link = PlainLink::make(alloc, parts.rank, parts.coming, parts.ends);
    show_calls(sheet, &Wire::make(), &mut link, calls);
}

/// Shows what a link answers to each call whose listed reads and writes fail.
fn show_listed(sheet: &mut Sheet, alloc: Global, parts: Parts, calls: Lines<'_>) {
    let Parts {
        coming,
        rank,
        ends,
        reads,
        writes,
        drops: _,
    } = parts;
    let mut link = ScriptLink::make(alloc, rank, coming, ends, reads, writes);
    show_calls(sheet, &Wire::make(), &mut link, calls);
}

/// Shows what a link answers to each call that a wire paces.
fn show_paced(
    sheet: &mut Sheet,
    alloc: Global,
    parts: Parts,
    calls: Lines<'_>,
) -> Result<(), NoMemory> {
    let Ok(wire) = Arc::new(alloc, Wire::make()) else {
        return Err(NoMemory);
    };
    let Ok(theirs) = Arc::try_clone(&wire) else {
        return Err(NoMemory);
    };
    let Parts {
        coming,
        rank,
        ends: _,
        reads,
        writes,
        drops,
    } = parts;
    let mut link = ScriptLink::paced(alloc, rank, coming, theirs, reads, writes, drops);
    show_calls(sheet, &wire, &mut link, calls);
    Ok(())
}

/// Shows what the link answers to each call, and what it says of itself at the end.
fn show_calls<L: Link + Shown>(sheet: &mut Sheet, wire: &Wire, link: &mut L, calls: Lines<'_>) {
    for call in calls {
        print!(sheet; "{call} => ");
        show_call(sheet, wire, link, call);
    }
    link.show(sheet);
}

/// Shows what the link answers to the call.
fn show_call<L: Link + Shown>(sheet: &mut Sheet, wire: &Wire, link: &mut L, call: &str) {
    let (word, rest) = words(call);
    match word {
        "read" | "write" | "shut" | "close" | "show" => show_answer(sheet, link, word, rest),
        _ => show_pace(sheet, wire, word, rest),
    }
}

/// Shows what the link of that number answers to a call of it.
pub fn show_link_call(sheet: &mut Sheet, links: &mut [ScriptLink], word: &str, rest: &str) {
    let (number, what) = words(rest);
    match links.get_mut(small_of(number) as usize) {
        Some(link) => show_answer(sheet, link, word, what),
        None => sheet.print("there is no such link\n"),
    }
}

/// Shows what the link answers to the call, or what it says of itself.
fn show_answer<L: Link + Shown>(sheet: &mut Sheet, link: &mut L, word: &str, what: &str) {
    match word {
        "read" => show_read(sheet, link, number_of(what)),
        "write" => println!(sheet; "{:?}", link.write(what.as_bytes())),
        "shut" => println!(sheet; "{}", link.shut()),
        "close" => {
            link.close();
            sheet.print("done\n");
        }
        _ => link.show(sheet),
    }
}

/// Shows what a read into so many bytes answers, at most eight.
fn show_read<L: Link>(sheet: &mut Sheet, link: &mut L, room: u64) {
    let mut buffer = [0u8; 8];
    let end = room.min(8) as usize;
    let got = link.read(&mut buffer[..end]);
    print!(sheet; "{got:?}");
    if let Got::Got(count) = got {
        sheet.bytes("", &buffer[..count as usize]);
    }
    sheet.print("\n");
}

/// What paces the link says so, and what it then tells.
fn show_pace(sheet: &mut Sheet, wire: &Wire, word: &str, rest: &str) {
    match word {
        "brings" => wire.bring(number_of(rest)),
        "ends" => wire.end(),
        "allows" => wire.allow(rest.parse::<u64>().ok()),
        "fails" if rest == "read" => wire.fail(LinkCall::Read),
        "fails" => wire.fail(LinkCall::Write),
        _ => wire.drop_link(),
    }
    println!(sheet;
        "came {}, ended {}, closed {}",
        wire.came(),
        wire.ended(),
        wire.closed()
    );
}
