//! What a path names in a site.
ghost use Rattle.std.specs.Prelude.{◌≡◌, ◌++◌, ◌<◌, false, length, IfOk, OnOk, if◌then◌else◌};
ghost use Rattle.file_table.specs.Path.{has_dot_segment, name_of_segments, segments};
ghost use Rattle.file_table.specs.PathInside.{further_name};
ghost use Rattle.file_table.specs.Resource.{IsFoundFor, IsFoundIn, escaped_byte, file_or, folder_path, has_files_under, is_unreserved, place_of_file, placed_behind, resource_in, resource_of, resource_of_decoded, resource_of_name};
ghost use Rattle.file_table.specs.Site.{folder_at, host_at, most_files};

use crate::found::Found;
use crate::path::{
    has_dot_segment, has_escaped_slash, has_nul, has_whole_escapes, name_of_segments, names_folder,
    plain_name,
};
use crate::search::{has_files_under, place_of_file};
use crate::site::Site;
use mpm_base::{NoMemory, Octets};
use percent_encoding::{percent_decode, percent_encode_byte};
use std::alloc::Global;

/// Whether a path has the byte unescaped.
fn is_unreserved(byte: u8) -> bool
    ensures { result ≡ is_unreserved byte }
{
    byte.is_ascii_alphanumeric() || matches!(byte, b'-' | b'.' | b'_' | b'~')
}

/// Adds a byte of a name as a path has it.
fn add_escaped(path: &mut Octets, byte: u8) -> Result<(), NoMemory>
    ensures { OnOk result (path.new ≡ path.old ++ escaped_byte byte) }
{
    if is_unreserved(byte) || byte == b'/' {
        path.add(&[byte])
    } else {
        path.add(percent_encode_byte(byte).as_bytes())
    }
}

/// The path of the folder of that name.
fn folder_path(alloc: Global, name: &[u8]) -> Result<Octets, NoMemory>
    ensures { IfOk result (λ path. path ≡ folder_path name.now) }
{
    let mut path = Octets::make(alloc);
    path.add(b"/")?;
    for byte in name {
        add_escaped(&mut path, *byte)?;
    }
    path.add(b"/")?;
    Ok(path)
}

/// The place of a file as it is answered.
fn file_at(place: usize) -> Found
    requires { place < most_files }
    ensures { result ≡ Found.File place }
{
    Found::File(place as u32)
}

/// The place of the file that stands for the folder of that name, among those that the host has.
fn place_of_index(site: &Site, host: u32, name: &[u8]) -> Option<usize>
    requires { host < length site.now.hosts }
    ensures { result ≡ place_of_file (further_name name.now (folder_at site.now host).index)
        (folder_at site.now host).files }
{
    if name.is_empty() {
        place_of_file(site.files_of(host), name, site.host(host).index())
    } else {
        place_of_file(site.files_of(host), name, site.host(host).slash_index())
    }
}

/// The file that stands for the folder of that name.
fn find_index(site: &Site, host: u32, name: &[u8]) -> Found
    requires { host < length site.now.hosts }
    ensures { result
        ≡ file_or (place_of_file (further_name name.now (folder_at site.now host).index)
        (folder_at site.now host).files) Found.Missing }
{
    let _few = site.files_of(host);
    match place_of_index(site, host, name) {
        Some(place) => file_at(place),
        None => Found::Missing,
    }
}

/// The path of the folder of that name, where a file lies in it.
fn find_folder(alloc: Global, site: &Site, host: u32, name: &[u8]) -> Result<Found, NoMemory>
    requires { host < length site.now.hosts }
    ensures { IfOk result (λ found. found
        ≡ (if has_files_under name.now (folder_at site.now host).files
        then Found.Redirect (folder_path name.now) else Found.Missing)) }
{
    if has_files_under(site.files_of(host), name) {
        Ok(Found::Redirect(folder_path(alloc, name)?))
    } else {
        Ok(Found::Missing)
    }
}

/// The file of that name, or else the path of the folder of that name.
fn find_name(alloc: Global, site: &Site, host: u32, name: &[u8]) -> Result<Found, NoMemory>
    requires { host < length site.now.hosts }
    ensures { IfOk result
        (λ found. found ≡ resource_of_name (folder_at site.now host) name.now) }
{
    match place_of_file(site.files_of(host), name, b"") {
        Some(place) => Ok(file_at(place)),
        None => find_folder(alloc, site, host, name),
    }
}

/// What a path without escapes or dot-segments names, whose segments spell the name.
fn find_named(
    alloc: Global,
    site: &Site,
    host: u32,
    path: &[u8],
    name: &[u8],
) -> Result<Found, NoMemory>
    requires host { host < length site.now.hosts }
    requires dots { has_dot_segment path.now ≡ false }
    requires name { name.now ≡ name_of_segments (segments path.now) }
    ensures { IfOk result
        (λ found. found ≡ resource_of_decoded (folder_at site.now host) path.now) }
{
    if names_folder(path) {
        Ok(find_index(site, host, name))
    } else {
        find_name(alloc, site, host, name)
    }
}

/// What a path without escapes names.
fn find_decoded(alloc: Global, site: &Site, host: u32, path: &[u8]) -> Result<Found, NoMemory>
    requires { host < length site.now.hosts }
    ensures { IfOk result
        (λ found. found ≡ resource_of_decoded (folder_at site.now host) path.now) }
{
    if has_dot_segment(path) {
        return Ok(Found::BadPath);
    }
    match plain_name(path) {
        Some(name) => find_named(alloc, site, host, path, name),
        None => {
            let name = name_of_segments(alloc, path)?;
            find_named(alloc, site, host, path, name.as_slice())
        }
    }
}

/// What a path names among the files that the host has.
fn find_path(alloc: Global, site: &Site, host: u32, path: &[u8]) -> Result<Found, NoMemory>
    requires { host < length site.now.hosts }
    ensures { IfOk result (λ found. found ≡ resource_in (folder_at site.now host) path.now) }
{
    if !has_whole_escapes(path) {
        return Ok(Found::BadPath);
    }
    let decoded = percent_decode(path).into_cow(alloc)?;
    if has_nul(decoded.as_slice()) {
        return Ok(Found::BadPath);
    }
    if has_escaped_slash(path) {
        return Ok(Found::Missing);
    }
    find_decoded(alloc, site, host, decoded.as_slice())
}

/// What was found among the files that the host has, among all files of the site.
fn placed(site: &Site, host: u32, found: Found) -> Found
    requires host { host < length site.now.hosts }
    requires found { IsFoundIn (folder_at site.now host) found }
    ensures value { result ≡ placed_behind (host_at site.now host).part.first found }
    ensures there { IsFoundFor site.now host result }
{
    let part = site.part_of(host);
    match found {
        Found::File(place) => Found::File(part.first + place),
        Found::Redirect(path) => Found::Redirect(path),
        Found::Missing => Found::Missing,
        Found::BadPath => Found::BadPath,
    }
}

/// What a path, which is the part of a target before its query, names for the host at the place. NoMemory where memory lacks for
/// its decoded form, for the name of a path with empty segments, or for a redirect.
pub fn find(alloc: Global, site: &Site, host: u32, path: &[u8]) -> Result<Found, NoMemory>
    requires { host < length site.now.hosts }
    ensures resource { IfOk result (λ found. found ≡ resource_of site.now host path.now) }
    ensures there { IfOk result (IsFoundFor site.now host) }
{
    match find_path(alloc, site, host, path) {
        Ok(found) => Ok(placed(site, host, found)),
        Err(NoMemory) => Err(NoMemory),
    }
}
