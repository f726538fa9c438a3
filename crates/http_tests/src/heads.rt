//! Heads as clients send them, and what RFC 9110 and RFC 9112 say of them.
ghost use Rattle.std.specs.Prelude.{◌<◌, length};

use http_read::{HeadAnswer, HeadReader, Limits, Request, next_head};
use mpm_base::NoMemory;
use std::alloc::Global;
use test_rows::{Marks, Sheet, small_of, text_of};

/// The limits that the server has by default.
pub const LIMITS: Limits = Limits {
    line: 8190,
    field: 8190,
    fields: 100,
};

/// The code of a refusal; or 200 for a whole head, 100 for one that goes on.
fn code_of(answer: &HeadAnswer) -> u16 {
    match answer {
        HeadAnswer::Whole(_, _) => 200,
        HeadAnswer::More => 100,
        HeadAnswer::Refused(code) => *code,
        HeadAnswer::NoMemory => 0,
    }
}

/// The code of the head by these limits.
fn head_code(alloc: Global, text: &[u8], limits: Limits) -> u16 {
    code_of(&next_head(alloc, text, &limits))
}

/// The three limits that the words give.
fn limits_of(text: &str) -> Limits {
    let mut words = text.split(' ');
    let line = small_of(words.next().unwrap_or(""));
    let field = small_of(words.next().unwrap_or(""));
    let fields = small_of(words.next().unwrap_or(""));
    Limits {
        line,
        field,
        fields,
    }
}

/// Shows the code of the head by the limits, behind how many bytes it is there where they come one by one, how many bytes are looked at
/// then, and the code then where it is another one.
pub fn show_head(sheet: &mut Sheet, alloc: Global, limits: &str, text: &[u8]) {
    let limits = limits_of(limits);
    let code = head_code(alloc, text, limits);
    print!(sheet; " {code}");
    if text.len() < 1_000_000 {
        let (found, end, looks) = read_by_byte(alloc, limits, text);
        print!(sheet; " behind {end} of {}, {looks} looked at", text.len());
        if found != code {
            print!(sheet; ", but {found}");
        }
    }
    sheet.println("");
}

/// The code of bytes that come one by one, how many there were then, and how many of them were looked at.
fn read_by_byte(alloc: Global, limits: Limits, text: &[u8]) -> (u16, usize, u64)
    requires { length text.now < 1000000 }
{
    let mut reader = HeadReader::new(limits);
    let mut looks: u64 = 0;
    for end in 0..text.len() {
        let bytes = &text[..end];
        let before = reader.looked();
        let answer = reader.read(alloc, bytes);
        looks = looks.saturating_add((end - before) as u64);
        match answer {
            HeadAnswer::More => {}
            answer => return (code_of(&answer), end, looks),
        }
    }
    (code_of(&reader.read(alloc, text)), text.len(), looks)
}

/// Shows what the head asks.
pub fn show_asked(sheet: &mut Sheet, alloc: Global, text: &[u8]) {
    match next_head(alloc, text, &LIMITS) {
        HeadAnswer::Whole(request, length) => {
            println!(sheet; " {length} of {}", text.len());
            show_request(sheet, &request);
        }
        answer => println!(sheet; " {}", code_of(&answer)),
    }
}

/// Shows what the request asks.
fn show_request(sheet: &mut Sheet, request: &Request) {
    sheet.text(request.method());
    sheet.print(" ");
    sheet.text(request.target());
    print!(sheet; " 1.{} of ", request.minor());
    sheet.text(request.host());
    sheet.print(", range ");
    sheet.text(request.range().unwrap_or(b"-"));
    print!(sheet;
        ", close {}, expects {}, {:?}",
        request.asked_close(),
        request.expects(),
        request.body()
    );
    show_conditions(sheet, request);
    sheet.println("");
}

/// Shows the value of a condition, where it stands.
fn show_value(sheet: &mut Sheet, name: &str, value: Option<&[u8]>) {
    if let Some(value) = value {
        print!(sheet; ", {name} ");
        sheet.text(value);
    }
}

/// Shows whether the tag `"t"` is among those of the request, where any stand.
fn show_tags(sheet: &mut Sheet, name: &str, has: Option<bool>) {
    if let Some(has) = has {
        print!(sheet; ", {name} {has}");
    }
}

/// Shows the conditions of the request, where any stand.
fn show_conditions(sheet: &mut Sheet, request: &Request) {
    show_tags(sheet, "match", request.if_match_has(b"\"", b"t\""));
    show_tags(
        sheet,
        "none-match",
        request.if_none_match_has(b"", b"\"t\""),
    );
    show_value(sheet, "unmodified", request.if_unmodified_since());
    show_value(sheet, "modified", request.if_modified_since());
    show_value(sheet, "if-range", request.if_range());
    if request.ranged_if() {
        sheet.print(", ranged if");
    }
}

/// Shows which bytes a host may have in its midst, and the codes of the others.
pub fn show_hosts(sheet: &mut Sheet, alloc: Global) -> Result<(), NoMemory> {
    for byte in 0..=255u8 {
        let mut text = text_of(alloc, "GET / HTTP/1.1|Host: a", Marks::Heads)?;
        text.add_pair(&[byte], b"b\r\n\r\n")?;
        let code = head_code(alloc, text.as_slice(), LIMITS);
        println!(sheet; "{byte} => {code}");
    }
    Ok(())
}
