//! What outputs and logs answer and keep.
use crate::calls::calls_of;
use failing_stand_ins::{MemLog, MemSink};
use mpm_base::{Logs, NoMemory, Sink};
use stand_ins::PlainSink;
use std::alloc::Global;
use test_rows::{Marks, Sheet, text_of, words};

/// Shows what an output answers to each piece, and what it keeps; and what one answers that keeps nothing.
pub fn show_sink(sheet: &mut Sheet, alloc: Global, slow: bool, rows: &str) -> Result<(), NoMemory> {
    let (fails, pieces) = rows.split_once('\n').unwrap_or((rows, ""));
    let calls = calls_of(alloc, fails)?;
    let mut sink = if slow {
        MemSink::slow(alloc, calls)
    } else {
        MemSink::make(alloc, calls)
    };
    show_kept(sheet, alloc, &mut sink, pieces)?;
    show_writes(sheet, alloc, &mut PlainSink, pieces)
}

/// Shows what the output answers to each piece, and what it keeps.
fn show_kept(
    sheet: &mut Sheet,
    alloc: Global,
    sink: &mut MemSink,
    pieces: &str,
) -> Result<(), NoMemory> {
    show_writes(sheet, alloc, sink, pieces)?;
    sheet.bytes("kept", sink.bytes());
    println!(sheet; ", {} faults", sink.faults());
    Ok(())
}

/// Shows what the output answers to each piece.
fn show_writes<K: Sink>(
    sheet: &mut Sheet,
    alloc: Global,
    sink: &mut K,
    pieces: &str,
) -> Result<(), NoMemory> {
    for piece in pieces.lines() {
        show_write(sheet, alloc, sink, piece)?;
    }
    Ok(())
}

/// Shows what the output answers to the piece.
fn show_write<K: Sink>(
    sheet: &mut Sheet,
    alloc: Global,
    sink: &mut K,
    piece: &str,
) -> Result<(), NoMemory> {
    let text = text_of(alloc, piece, Marks::Lines)?;
    let put = sink.write(text.as_slice());
    println!(sheet; "{piece} => {put:?}");
    Ok(())
}

/// Shows what a log answers to each call, and what was written behind each of its openings.
pub fn show_log(sheet: &mut Sheet, alloc: Global, slow: bool, rows: &str) -> Result<(), NoMemory> {
    let (fails, calls) = rows.split_once('\n').unwrap_or((rows, ""));
    let listed = calls_of(alloc, fails)?;
    let mut log = if slow {
        MemLog::slow(alloc, listed)
    } else {
        MemLog::make(alloc, listed)
    };
    show_log_calls(sheet, alloc, &mut log, calls)?;
    show_openings(sheet, &log);
    Ok(())
}

/// Shows what the log answers to each call.
fn show_log_calls<K: Logs>(
    sheet: &mut Sheet,
    alloc: Global,
    log: &mut K,
    calls: &str,
) -> Result<(), NoMemory> {
    for call in calls.lines() {
        show_log_call(sheet, alloc, log, call)?;
    }
    Ok(())
}

/// Shows what the log answers to a call.
fn show_log_call<K: Logs>(
    sheet: &mut Sheet,
    alloc: Global,
    log: &mut K,
    call: &str,
) -> Result<(), NoMemory> {
    let (word, rest) = words(call);
    if word == "write" {
        return show_write(sheet, alloc, log, rest);
    }
    let is_open = log.begin(rest);
    println!(sheet; "{call} => {is_open}");
    Ok(())
}

/// Shows what was written behind each opening of the log, and in all, and how many calls failed.
fn show_openings(sheet: &mut Sheet, log: &MemLog) {
    for place in 0..log.opened() {
        show_opening(sheet, log, place);
    }
    sheet.bytes("kept", log.bytes());
    println!(sheet; ", {} faults", log.faults());
}

/// Shows the name of the opening at that place, and what was written behind it.
fn show_opening(sheet: &mut Sheet, log: &MemLog, place: usize) {
    sheet.bytes("opened", log.name(place).unwrap_or(b"none"));
    sheet.bytes(", written", log.written(place).unwrap_or(b"none"));
    sheet.print("\n");
}
