//! The status pages: the numbers and letters of a snapshot, as plain text and as HTML.
//!
//! Each page is exactly the text that `specs/Page.antt` says.
#![tactic(auto)]

ghost use Rattle.std.specs.Prelude.{◌≡◌, ◌++◌, decimal, OnOk, IfOk};
ghost use Rattle.scoreboard.specs.Page.{line, text_page, html_page};

use mpm_base::{NoMemory, Octets, Snapshot};
use std::alloc::Global;

/// The page as plain text, for programs: one line for each number, then one with the letters.
pub fn page_auto(alloc: Global, s: &Snapshot) -> Result<Octets, NoMemory>
    ensures { IfOk result (λ page. page ≡ text_page s.now) }
{
    let mut page = Octets::make(alloc);
    add_text(&mut page, s)?;
    Ok(page)
}

/// The page as HTML, for browsers: the plain text, preformatted.
pub fn page_html(alloc: Global, s: &Snapshot) -> Result<Octets, NoMemory>
    ensures { IfOk result (λ page. page ≡ html_page s.now) }
{
    let mut page = Octets::of(
        alloc,
        b"<html><head><title>Server Status</title></head><body><pre>\n",
    )?;
    add_text(&mut page, s)?;
    page.add(b"</pre></body></html>\n")?;
    Ok(page)
}

fn add_text(page: &mut Octets, s: &Snapshot) -> Result<(), NoMemory>
    ensures { OnOk result (page.new ≡ page.old ++ text_page s.now) }
{
    add_count(page, "Generation", s.generation)?;
    add_count(page, "BusyWorkers", s.busy)?;
    add_count(page, "IdleWorkers", s.idle)?;
    add_count(page, "ConnsTotal", s.total)?;
    add_count(page, "ConnsAsyncWriting", s.writing)?;
    add_count(page, "ConnsAsyncKeepAlive", s.keep_alive)?;
    add_count(page, "ConnsAsyncClosing", s.closing)?;
    add_line(page, "Scoreboard", s.letters.as_slice())
}

fn add_count(page: &mut Octets, name: &str, value: u32) -> Result<(), NoMemory>
    ensures { OnOk result (page.new ≡ page.old ++ line name.now (decimal value)) }
{
    page.add(name.as_bytes())?;
    page.add(b": ")?;
    page.add_number(value as u64)?;
    page.add(b"\n")
}

fn add_line(page: &mut Octets, name: &str, value: &[u8]) -> Result<(), NoMemory>
    ensures { OnOk result (page.new ≡ page.old ++ line name.now value.now) }
{
    page.add(name.as_bytes())?;
    page.add(b": ")?;
    page.add(value)?;
    page.add(b"\n")
}
