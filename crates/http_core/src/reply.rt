//! A response: its head, and what its body is.
ghost use Rattle.std.specs.Prelude.{◌≡◌, true, IfOk, if◌then◌else◌};
ghost use Rattle.mpm_base.specs.Moment.{IsSecond};
ghost use Rattle.http_core.specs.Ask.{IsServedOf};
ghost use Rattle.http_core.specs.Reply as spec;
ghost use Rattle.http_core.specs.Reply.{IsRefusalReply, IsReply};
ghost use Rattle.http_core.specs.Code.{refuses_head};

use crate::code::{Code, refusal_code};
use crate::plan::{Plan, Served};
use crate::status_page::page_text;
use crate::writing::{date_at, write_head, write_refusal};
use file_table::Site;
use mpm_base::{NoMemory, Note, Octets};
use std::alloc::Global;

/// What follows the head of a response.
#[derive(Drop)]
pub enum Body {
    /// Nothing.
    Nothing,
    /// These bytes.
    Own(Octets),
    /// The bytes of a file of the site, by its place: from the one place up to the other, which isn't one of them.
    File(u32, u64, u64),
}

impl Body {
    /// How many bytes it has.
    fn len(&self) -> u64
        ensures { result ≡ spec.body_length self.now }
    {
        match self {
            Body::Nothing => 0,
            Body::Own(text) => text.len() as u64,
            Body::File(_, from, to) => to.saturating_sub(*from),
        }
    }
}

/// A response, its head as bytes.
#[derive(Drop)]
pub struct Reply {
    /// The head, with the empty line behind it.
    pub head: Octets,
    /// What follows it.
    pub body: Body,
}

/// A body that says the code.
fn code_body(alloc: Global, code: Code) -> Result<Octets, NoMemory>
    ensures { IfOk result (λ text. text ≡ spec.code_body code) }
{
    let mut text = Octets::of(alloc, code.text())?;
    text.add(b"\n")?;
    Ok(text)
}

/// The body of a GET.
fn body_of_get(alloc: Global, served: &Served, note: &Note) -> Result<Body, NoMemory>
    ensures { IfOk result (λ body. body ≡ spec.body_of_get served.now note.now.page) }
{
    match served {
        Served::Whole(part) => Ok(Body::File(part.file, part.from, part.to)),
        Served::Part(part) => Ok(Body::File(part.file, part.from, part.to)),
        Served::Options => Ok(Body::Nothing),
        Served::Unmodified(_) => Ok(Body::Nothing),
        Served::Page(auto) => Ok(Body::Own(page_text(alloc, *auto, &note.page)?)),
        _ => Ok(Body::Own(code_body(alloc, served.code())?)),
    }
}

/// What of the body of a GET is sent: a HEAD has none.
fn sent_body(only_head: bool, body: Body) -> Body
    ensures { result ≡ (if only_head then Body.Nothing else body) }
{
    if only_head { Body::Nothing } else { body }
}

/// The response of this plan with the note: its head is written behind what the buffer holds, which is dropped where
/// memory lacks. A status page shows what the note keeps, and is empty where that is nothing.
pub fn response(
    alloc: Global,
    head: Octets,
    site: &Site,
    plan: &Plan,
    note: &Note,
) -> Result<Reply, NoMemory>
    requires date { IsSecond note.now.date }
    requires of { IsServedOf site.now plan.now.served }
    ensures { IfOk result (IsReply site.now plan.now note.now head) }
{
    let mut head = head;
    let date = date_at(note.date);
    let body = body_of_get(alloc, &plan.served, note)?;
    write_head(&mut head, site, plan, note, body.len(), &date)?;
    let body = sent_body(plan.only_head, body);
    Ok(Reply { head, body })
}

/// The response to a head that was refused by the note's code: its head is written behind what the buffer holds, which is
/// dropped where memory lacks.
pub fn refusal(alloc: Global, head: Octets, note: &Note) -> Result<Reply, NoMemory>
    requires date { IsSecond note.now.date }
    requires code { refuses_head note.now.code ≡ true }
    ensures { IfOk result (IsRefusalReply note.now head) }
{
    let mut head = head;
    let date = date_at(note.date);
    let code = refusal_code(note.code);
    write_refusal(&mut head, code, &date)?;
    let text = code_body(alloc, code)?;
    Ok(Reply {
        head,
        body: Body::Own(text),
    })
}
