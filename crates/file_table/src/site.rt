//! The files of a site, and what each host has of them.
ghost use Rattle.std.specs.Prelude.{◌≡◌, ◌+◌, ◌<◌, ◌≤◌, ◌^◌, ◌∷◌, length, None, Some, IfOk, slice_get, option_map, if◌then◌else◌};
ghost use Rattle.file_table.specs.Order.{IsInOrder};
ghost use Rattle.file_table.specs.Site.{folder_at, host_at, most_files};
ghost use Rattle.file_table.specs.SiteInside.{AreFoundOnce, AreHosts};
ghost use Rattle.file_table.specs.Tag.{tag_of};
ghost use Rattle.media_types.specs.MediaType.{type_of_name};
ghost use Rattle.mpm_base.specs.Moment.{IsSecond};

use crate::found_once::{FoundOnce, Tags};
use crate::marks::Marks;
use crate::part::Part;
use crate::site_file::SiteFile;
use media_types::TypeTable;
use mpm_base::{NoMemory, Octets};
use name_hosts::HostList;
use std::alloc::Global;
use std::marker::Model;

/// What a host has of a site.
#[derive(Debug, Drop)]
pub struct Host {
    index: Octets,
    slash_index: Octets,
    part: Part,
}

impl Model for Host {
    ghost use Rattle.std.specs.Prelude.{◌≡◌, ◌∷◌};
    ghost use Rattle.file_table.specs.Site.{SeenHost};

    ghost Value = { SeenHost };

    ghost view = { λ h. record { index = h.index; part = h.part } };

    ghost invariant = { λ h. h.slash_index ≡ 47 ∷ h.index };
}

impl Host {
    /// A host with that index, whose root has this part of the files.
    pub(crate) fn of(alloc: Global, index: &[u8], part: Part) -> Result<Host, NoMemory>
        ensures { IfOk result (λ host. host ≡ record { index = index.now; part = part }) }
    {
        let mut slash_index = Octets::of(alloc, b"/")?;
        slash_index.add(index)?;
        let index = Octets::of(alloc, index)?;
        Ok(Host {
            index,
            slash_index,
            part,
        })
    }

    /// The name of the file that stands for a folder.
    pub(crate) fn index(&self) -> &[u8]
        ensures { result.now ≡ self.now.index }
    {
        self.index.as_slice()
    }

    /// A slash and the name of the file that stands for a folder.
    pub(crate) fn slash_index(&self) -> &[u8]
        ensures { result.now ≡ 47 ∷ self.now.index }
    {
        self.slash_index.as_slice()
    }

    /// Which of the files lie under its root.
    pub(crate) fn part(&self) -> Part
        ensures { result ≡ self.now.part }
    {
        self.part
    }
}

/// The files under the roots of the hosts, at most 65,536. Tags are found once, and the places of types.
#[derive(Debug, Drop)]
pub struct Site {
    names: HostList,
    hosts: Vec<Host>,
    status: bool,
    marks: Marks,
    types: TypeTable,
    files: Vec<SiteFile>,
    tags: Tags,
    places: Vec<usize>,
}

impl Model for Site {
    ghost use Rattle.file_table.specs.Site.{SeenSite};
    ghost use Rattle.file_table.specs.SiteInside.{AreFoundOnce, AreHosts};

    ghost Value = { SeenSite };

    ghost view = { λ s. record {
      names = s.names;
      hosts = s.hosts.items;
      status = s.status;
      marks = s.marks;
      types = s.types;
      files = s.files.items;
    } };

    ghost invariant = { λ s. AreHosts s.names s.hosts.items s.files.items
        × AreFoundOnce s.marks s.types s.files.items s.tags s.places.items };
}

impl Site {
    /// A site of these hosts and files, of which the rest was found.
    pub(crate) fn of(
        names: HostList,
        hosts: Vec<Host>,
        status: bool,
        marks: Marks,
        types: TypeTable,
        files: Vec<SiteFile>,
        found: FoundOnce,
    ) -> Site
        requires hosts { AreHosts names hosts.items files.items }
        requires found { AreFoundOnce marks types files.items found.tags found.places.items }
        ensures { result ≡ record {
          names = names;
          hosts = hosts.items;
          status = status;
          marks = marks;
          types = types;
          files = files.items;
        } }
    {
        let FoundOnce { tags, places } = found;
        Site {
            names,
            hosts,
            status,
            marks,
            types,
            files,
            tags,
            places,
        }
    }

    /// How many hosts there are.
    pub(crate) fn host_count(&self) -> usize
        ensures count { result ≡ length self.now.hosts }
        ensures most { length self.now.hosts < 2 ^ 32 }
    {
        self.hosts.len()
    }

    /// Which marks the files have.
    pub fn marks(&self) -> Marks
        ensures { result ≡ self.now.marks }
    {
        self.marks
    }

    /// The type of the file at the place.
    pub(crate) fn type_of(&self, file: u32) -> &[u8]
        requires { file < length self.now.files }
        ensures { option_map (λ f. type_of_name self.now.types f.name)
            (slice_get self.now.files file) ≡ Some result.now }
    {
        self.types.type_at(self.places[file as usize])
    }

    /// The tag of the file at the place, where files have tags.
    pub(crate) fn tag_at(&self, file: usize) -> Option<&[u8]>
        requires { file < length self.now.files }
        ensures { option_map (λ tag. tag.now) result ≡ (if self.now.marks.tags
            then option_map (λ f. tag_of f.bytes) (slice_get self.now.files file) else None) }
    {
        if !self.marks.tags {
            return None;
        }
        match self.tags.get(file) {
            Some(tag) => Some(tag.as_slice()),
            None => None,
        }
    }

    /// Whether the status page is served.
    pub fn has_status(&self) -> bool
        ensures { result ≡ self.now.status }
    {
        self.status
    }

    /// The files, those of one root behind those of another, in the order of their names there.
    pub fn files(&self) -> &[SiteFile]
        ensures files { result.now ≡ self.now.files }
        ensures few { length self.now.files ≤ most_files }
    {
        self.files.as_slice()
    }

    /// What the host at the place has.
    pub(crate) fn host(&self, host: u32) -> &Host
        requires { host < length self.now.hosts }
        ensures { result.now ≡ host_at self.now host }
    {
        &self.hosts[host as usize]
    }

    /// Which of the files the host has.
    pub(crate) fn part_of(&self, host: u32) -> Part
        requires { host < length self.now.hosts }
        ensures part { result ≡ (host_at self.now host).part }
        ensures within { result.first + result.count ≤ length self.now.files }
        ensures few { length self.now.files ≤ most_files }
        ensures in_order { IsInOrder (folder_at self.now host).files }
    {
        self.hosts[host as usize].part()
    }

    /// The files that the host has, in the order of their names.
    pub(crate) fn files_of(&self, host: u32) -> &[SiteFile]
        requires { host < length self.now.hosts }
        ensures files { result.now ≡ (folder_at self.now host).files }
        ensures in_order { IsInOrder (folder_at self.now host).files }
        ensures few { length result.now ≤ most_files }
    {
        let part = self.part_of(host);
        let (_, rest) = self.files.as_slice().split_at(part.first as usize);
        let (own, _) = rest.split_at(part.count as usize);
        own
    }
}

/// The names of each host, in order. There is a host.
pub fn hosts(site: &Site) -> &HostList
    ensures names { result.now ≡ site.now.names }
    ensures same { length site.now.names ≡ length site.now.hosts }
    ensures some { 0 < length site.now.hosts }
    ensures most { length site.now.hosts < 2 ^ 32 }
{
    &site.names
}

/// The bytes of a file of the site, which are not copied. Takes no memory.
pub fn bytes(site: &Site, file: u32) -> &[u8]
    requires { file < length site.now.files }
    ensures { option_map (λ f. f.bytes) (slice_get site.now.files file) ≡ Some result.now }
{
    site.files()[file as usize].bytes()
}

/// The content type of a file of the site (RFC 9110, section 8.3). Takes no memory, and compares nothing.
pub fn content_type(site: &Site, file: u32) -> &[u8]
    requires { file < length site.now.files }
    ensures { option_map (λ f. type_of_name site.now.types f.name) (slice_get site.now.files file)
        ≡ Some result.now }
{
    site.type_of(file)
}

/// The entity tag of a file of the site (RFC 9110, section 8.8.3), where files have tags. Takes no memory.
pub fn entity_tag(site: &Site, file: u32) -> Option<&[u8]>
    requires { file < length site.now.files }
    ensures { option_map (λ tag. tag.now) result ≡ (if site.now.marks.tags
        then option_map (λ f. tag_of f.bytes) (slice_get site.now.files file) else None) }
{
    site.tag_at(file as usize)
}

/// The second in which a file of the site was changed (RFC 9110, section 8.8.2). Takes no memory.
pub fn last_change(site: &Site, file: u32) -> u64
    requires { file < length site.now.files }
    ensures second { option_map (λ f. f.second) (slice_get site.now.files file) ≡ Some result }
    ensures bound { IsSecond result }
{
    site.files()[file as usize].second()
}
