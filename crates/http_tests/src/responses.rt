//! Responses by example.
ghost use Rattle.std.specs.Prelude.{◌≡◌, true, IfOk};
ghost use Rattle.mpm_base.specs.Moment.{IsSecond};
ghost use Rattle.http_core.specs.Ask.{IsServedOf};
ghost use Rattle.http_core.specs.Code.{refuses_head};

use crate::heads::LIMITS;
use crate::pages::page_where;
use crate::sites::site_named;
use file_table::{Site, bytes};
use http_core::{Body, Plan, ask_of, continue_text, refusal, response};
use http_read::{HeadAnswer, Request, next_head};
use mpm_base::{Ask, NoMemory, Note, Octets};
use std::alloc::Global;
use test_rows::{Sheet, number_of, words};

/// What a request asks for, and a plan that is one of the site.
fn plan_of(alloc: Global, site: &Site, request: &Request) -> Result<(Ask, Plan), NoMemory>
    ensures { IfOk result (λ asked. IsServedOf site.now asked.1.served) }
{
    ask_of(alloc, site, request)
}

/// Puts the bytes of the body behind the others.
fn add_body(site: &Site, body: &Body, text: &mut Octets) -> Result<(), NoMemory> {
    match body {
        Body::Nothing => Ok(()),
        Body::Own(own) => text.add(own.as_slice()),
        Body::File(file, from, to) => {
            if (*file as usize) < site.files().len() {
                let whole = bytes(site, *file);
                if *from <= *to && *to <= whole.len() as u64 {
                    text.add(&whole[*from as usize..*to as usize])?;
                }
            }
            Ok(())
        }
    }
}

/// The whole response of this plan.
fn reply_of(alloc: Global, site: &Site, plan: &Plan, note: &Note) -> Result<Octets, NoMemory>
    requires date { IsSecond note.now.date }
    requires of { IsServedOf site.now plan.now.served }
{
    let reply = response(alloc, Octets::make(alloc), site, plan, note)?;
    let mut text = reply.head;
    add_body(site, &reply.body, &mut text)?;
    Ok(text)
}

/// The code and the whole response to this request, dated by the second. It is the last one by demand, or where the head asks to
/// close.
fn answer_of(
    alloc: Global,
    site: &Site,
    request: &Request,
    date: u64,
    last: bool,
) -> Result<(u16, Octets), NoMemory>
    requires { IsSecond date }
{
    let (ask, plan) = plan_of(alloc, site, request)?;
    let page = page_where(alloc, ask.page)?;
    let last = last || ask.asked_close;
    let note = Note {
        date,
        asked_close: last,
        last,
        code: ask.code,
        page,
    };
    let text = reply_of(alloc, site, &plan, &note)?;
    Ok((ask.code, text))
}

/// Shows the response to the head. The words say the second of its date, whether it is the last, and what site it is.
pub fn show_answer(
    sheet: &mut Sheet,
    alloc: Global,
    kind: &str,
    head: &[u8],
) -> Result<(), NoMemory> {
    let (second, rest) = words(kind);
    let (last, word) = words(rest);
    let site = site_named(alloc, word)?;
    show_answer_of(sheet, alloc, &site, number_of(second), last == "last", head)
}

/// Shows the response of the site to the head.
fn show_answer_of(
    sheet: &mut Sheet,
    alloc: Global,
    site: &Site,
    second: u64,
    last: bool,
    head: &[u8],
) -> Result<(), NoMemory> {
    match next_head(alloc, head, &LIMITS) {
        HeadAnswer::Whole(request, _) if second < 253_402_300_800 => {
            let (code, text) = answer_of(alloc, site, &request, second, last)?;
            print!(sheet; " {code}");
            sheet.bytes("", text.as_slice());
            sheet.println("");
        }
        _ => sheet.println(" no request"),
    }
    Ok(())
}

/// The whole response to a head that was refused by this code.
fn refusal_of(alloc: Global, code: u16) -> Result<Octets, NoMemory>
    requires { refuses_head code ≡ true }
{
    let note = Note {
        date: 0,
        asked_close: true,
        last: true,
        code,
        page: None,
    };
    let reply = refusal(alloc, Octets::make(alloc), &note)?;
    let mut text = reply.head;
    if let Body::Own(own) = &reply.body {
        text.add(own.as_slice())?;
    }
    Ok(text)
}

/// Shows the response to a head that is refused by the code of the row.
pub fn show_refusal(sheet: &mut Sheet, alloc: Global, row: &str) -> Result<(), NoMemory> {
    let code = row.parse::<u16>().unwrap_or(0);
    if matches!(code, 400 | 413 | 414 | 417 | 501 | 505) {
        let text = refusal_of(alloc, code)?;
        sheet.bytes("", text.as_slice());
    }
    sheet.println("");
    Ok(())
}

/// Shows the text by which a body is asked for.
pub fn show_continue(sheet: &mut Sheet, alloc: Global) -> Result<(), NoMemory> {
    let text = String::from_utf8_lossy(alloc, continue_text())?;
    println!(sheet; "{text:?}");
    Ok(())
}
