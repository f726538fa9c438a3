//! What a request asks for, and the plan of its response.
ghost use Rattle.std.specs.Prelude.{◌≡◌, ◌<◌, IfOk, IfSome, codes, length, option_map, if◌then◌else◌};
ghost use Rattle.std.specs.Option.{ForSome};
ghost use Rattle.std.specs.Str.{bytes_eq};
ghost use Rattle.file_table.specs.Resource.{IsFoundFor};
ghost use Rattle.http_core.specs.ServedInside.{IsPlaceOf};
ghost use Rattle.http_core.specs.Ask as spec;
ghost use Rattle.http_core.specs.Ask.{IsServedFor, IsServedOf};
ghost use Rattle.http_core.specs.RangeInside.{HasSmallBound, IsPartWithin};
ghost use Rattle.http_core.specs.Served.{is_disallowed, is_get, is_head, is_options, chosen_host, options_of, range_for, served_range, resource_at, resource_of_target, sent_file, served_at, served_file, served_of, served_to, size_at};

use crate::code::Code;
use crate::conditions::{Verdict, range_on, verdict_on};
use crate::laws::served_files_are_of_the_chosen_host;
use crate::location::location_of;
use crate::plan::{FilePart, Plan, Served};
use crate::range::{Range, Selection, range_of, selection_of};
use crate::status_page::{asks_for_text, is_status_path};
use crate::target::{named_host, path_of};
use file_table::{Found, Site, bytes, find, hosts};
use http_read::Request;
use mpm_base::{Ask, NoMemory};
use name_hosts::choose;
use std::alloc::Global;

/// The host that the request is for.
fn chosen_host(site: &Site, request: &Request) -> u32
    ensures which { result ≡ chosen_host site.now request.now }
    ensures there { result < length site.now.hosts }
{
    choose(hosts(site), named_host(request.target(), request.host()))
}

/// What the path of a target names for the host.
fn resource_at(
    alloc: Global,
    site: &Site,
    host: u32,
    path: Option<&[u8]>,
) -> Result<Found, NoMemory>
    requires { host < length site.now.hosts }
    ensures resource { IfOk result
        (λ found. found ≡ resource_at site.now host (option_map (λ p. p.now) path.entry)) }
    ensures there { IfOk result (IsFoundFor site.now host) }
{
    match path {
        Some(path) => find(alloc, site, host, path),
        None => Ok(Found::BadPath),
    }
}

/// The range of a request where it counts.
fn range_for(get: bool, size: u64, text: Option<&[u8]>) -> Option<Range>
    ensures value { result ≡ range_for get size (option_map (λ t. t.now) text.entry) }
    ensures bound { IfSome result HasSmallBound }
{
    match text {
        Some(text) if get && size != 0 => range_of(text),
        _ => None,
    }
}

/// The file, or what a range selects of it.
fn ranged(file: u32, size: u64, range: Option<Range>) -> Served
    requires { ForSome range HasSmallBound }
    ensures value { result ≡ served_range file size range }
    ensures within { IsPartWithin file size result }
{
    let selection = match range {
        Some(range) => selection_of(size, range),
        None => Selection::Whole,
    };
    match selection {
        Selection::Whole => Served::Whole(FilePart {
            file,
            from: 0,
            to: size,
            size,
        }),
        Selection::Part(from, to) => Served::Part(FilePart {
            file,
            from,
            to,
            size,
        }),
        Selection::Unsatisfiable => Served::Unsatisfied(size),
    }
}

/// How many bytes the file has.
fn size_at(site: &Site, place: u32) -> u64
    requires { place < length site.now.files }
    ensures { result ≡ size_at site.now place }
{
    bytes(site, place).len() as u64
}

/// What is sent of the file at the place to GET, or else to HEAD, where its conditions say nothing else.
fn sent_file(site: &Site, get: bool, request: &Request, place: u32) -> Served
    requires { place < length site.now.files }
    ensures value { result ≡ sent_file site.now get request.now place }
    ensures of { IsServedOf site.now result }
{
    let size = size_at(site, place);
    let range = range_on(site, request, place);
    ranged(place, size, range_for(get, size, range))
}

/// What the file at the place serves to GET, or else to HEAD.
fn served_file(site: &Site, get: bool, request: &Request, place: u32) -> Served
    requires { place < length site.now.files }
    ensures value { result ≡ served_file site.now get request.now place }
    ensures of { IsServedOf site.now result }
{
    match verdict_on(site, request, place) {
        Verdict::Sends => sent_file(site, get, request, place),
        Verdict::Fails => Served::Refused(Code::PreconditionFailed),
        Verdict::Unmodified => Served::Unmodified(place),
    }
}

/// What the resource of the target serves to GET, or else to HEAD.
fn served_of(site: &Site, get: bool, request: &Request, found: Found) -> Result<Served, NoMemory>
    requires { IsPlaceOf site.now found }
    ensures value { IfOk result (λ served. served ≡ served_of site.now get request.now found) }
    ensures of { IfOk result (IsServedOf site.now) }
{
    match found {
        Found::BadPath => Ok(Served::Refused(Code::BadRequest)),
        Found::Redirect(path) => Ok(Served::Moved(location_of(request.target(), path)?)),
        Found::Missing => Ok(Served::Refused(Code::NotFound)),
        Found::File(place) => Ok(served_file(site, get, request, place)),
    }
}

/// What OPTIONS is served for the resource.
fn options_of(found: Found) -> Served
    ensures { result ≡ options_of found }
{
    match found {
        Found::BadPath => Served::Refused(Code::BadRequest),
        _ => Served::Options,
    }
}

/// Whether the method is GET.
fn is_get(method: &[u8]) -> bool
    ensures { result ≡ is_get method.now }
{
    method == b"GET".as_slice()
}

/// Whether the method is HEAD.
fn is_head(method: &[u8]) -> bool
    ensures { result ≡ is_head method.now }
{
    method == b"HEAD".as_slice()
}

/// Whether the method is OPTIONS.
fn is_options(method: &[u8]) -> bool
    ensures { result ≡ is_options method.now }
{
    method == b"OPTIONS".as_slice()
}

/// Whether the method is known and not allowed.
fn is_disallowed(method: &[u8]) -> bool
    ensures { result ≡ is_disallowed method.now }
{
    method == b"POST".as_slice()
        || method == b"PUT".as_slice()
        || method == b"DELETE".as_slice()
        || method == b"PATCH".as_slice()
}

/// What is served to a GET, or else to a HEAD.
fn served_at(alloc: Global, site: &Site, request: &Request, get: bool) -> Result<Served, NoMemory>
    ensures value { IfOk result
        (λ served. served ≡ served_at site.now (chosen_host site.now request.now) get request.now) }
    ensures of { IfOk result (IsServedOf site.now) }
{
    let target = request.target();
    let path = path_of(target);
    if site.has_status() && is_status_path(path) {
        return Ok(Served::Page(asks_for_text(target)));
    }
    let found = resource_at(alloc, site, chosen_host(site, request), path)?;
    served_of(site, get, request, found)
}

/// What is served to OPTIONS.
fn serve_options(alloc: Global, site: &Site, request: &Request) -> Result<Served, NoMemory>
    ensures value { IfOk result (λ served. served
        ≡ (if bytes_eq request.now.target (codes "*") then Served.Options
        else options_of (resource_of_target site.now (chosen_host site.now request.now)
        request.now.target))) }
    ensures of { IfOk result (IsServedOf site.now) }
{
    let target = request.target();
    if matches!(target, b"*") {
        return Ok(Served::Options);
    }
    let found = resource_at(alloc, site, chosen_host(site, request), path_of(target))?;
    Ok(options_of(found))
}

/// What the request is served.
fn served_to(alloc: Global, site: &Site, request: &Request) -> Result<Served, NoMemory>
    ensures value { IfOk result (λ served. served ≡ served_to site.now request.now) }
    ensures of { IfOk result (IsServedOf site.now) }
{
    let method = request.method();
    let get = is_get(method);
    if get || is_head(method) {
        served_at(alloc, site, request, get)
    } else if is_options(method) {
        serve_options(alloc, site, request)
    } else if is_disallowed(method) {
        Ok(Served::Refused(Code::MethodNotAllowed))
    } else {
        Ok(Served::Refused(Code::NotImplemented))
    }
}

/// What a request asks for, and the plan of its response: a file that is served is one that the host has which the request is for.
/// NoMemory where memory lacks for its path.
pub fn ask_of(alloc: Global, site: &Site, request: &Request) -> Result<(Ask, Plan), NoMemory>
    ensures ask { IfOk result (λ asked. asked.0 ≡ spec.ask_for site.now request.now) }
    ensures plan { IfOk result (λ asked. asked.1 ≡ spec.plan_for site.now request.now) }
    ensures of { IfOk result (λ asked. IsServedOf site.now asked.1.served) }
    ensures host { IfOk result (λ asked.
        IsServedFor site.now (chosen_host site.now request.now) asked.1.served) }
{
    served_files_are_of_the_chosen_host();
    let served = served_to(alloc, site, request)?;
    let ask = Ask {
        asked_close: request.asked_close(),
        refused: false,
        code: served.code().number(),
        page: served.is_page(),
    };
    let plan = Plan {
        served,
        only_head: is_head(request.method()),
        minor: request.minor(),
    };
    Ok((ask, plan))
}
