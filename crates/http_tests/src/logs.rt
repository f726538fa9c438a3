//! The lines of the access log.
ghost use Rattle.mpm_base.specs.Moment.{IsSecond};

use access_log::{escaped, log_line, request_line};
use mpm_base::{NoMemory, Octets};
use std::alloc::Global;
use test_rows::{Marks, Sheet, number_of, small_of, text_of, words};

/// The last second of the year 9999.
const LAST_SECOND: u64 = 253_402_300_799;

/// What a row says of a response.
#[derive(Clone, Copy)]
struct Response {
    peer: [u8; 4],
    date: u64,
    code: u16,
    size: u64,
}

/// Shows the lines of responses, written one behind the other, whose request lines are cut to the limit.
pub fn show_lines(
    sheet: &mut Sheet,
    alloc: Global,
    limit: &str,
    rows: &str,
) -> Result<(), NoMemory> {
    let limit = small_of(limit);
    let mut log = Octets::make(alloc);
    for row in rows.lines() {
        add_line(&mut log, alloc, limit, row)?;
    }
    sheet.text(log.as_slice());
    Ok(())
}

/// Adds the line of the response of the row to the log.
fn add_line(log: &mut Octets, alloc: Global, limit: u32, row: &str) -> Result<(), NoMemory> {
    let (response, head) = response_of(row);
    let Response {
        peer,
        date,
        code,
        size,
    } = response;
    let received = text_of(alloc, head, Marks::Heads)?;
    let line = request_line(received.as_slice(), limit);
    log_line(alloc, log, peer, date.min(LAST_SECOND), code, line, size)
}

/// What the row says of its response, and what came of its client.
fn response_of(row: &str) -> (Response, &str) {
    let (peer, rest) = words(row);
    let (date, rest) = words(rest);
    let (code, rest) = words(rest);
    let (size, head) = words(rest);
    let response = Response {
        peer: peer_of(peer),
        date: number_of(date),
        code: code.parse::<u16>().unwrap_or(0),
        size: number_of(size),
    };
    (response, head)
}

/// The numbers of an address that has points between them.
fn peer_of(text: &str) -> [u8; 4] {
    let mut numbers = text.split('.');
    let mut peer = [0; 4];
    for number in peer.iter_mut() {
        *number = numbers.next().unwrap_or("").parse::<u8>().unwrap_or(0);
    }
    peer
}

/// Shows how each byte stands in the log.
pub fn show_escapes(sheet: &mut Sheet, alloc: Global) -> Result<(), NoMemory> {
    for byte in 0..=255u8 {
        let text = escaped(alloc, &[b'a', byte, b'z'])?;
        print!(sheet; "{byte} => ");
        sheet.text(text.as_slice());
        sheet.println("");
    }
    Ok(())
}
