//! What a site takes over of the one before it.
//! Why it is so stands in docs/DECISIONS.md: 143, What editions of a site share.
ghost use Rattle.std.specs.Prelude.{◌≡◌, IfOk, IfSome};
ghost use Rattle.std.specs.Arc.{arc_value};

use crate::search::place_of_file;
use crate::site::Site;
use crate::site_file::{Body, SiteFile};
use crate::site_order::HostOrders;
use mpm_base::{NoMemory, Octets, Second};
use std::alloc::Global;
use std::sync::Arc;

/// The site of before, where there is one, and where its files are looked for.
#[derive(Drop)]
pub struct Past<'a> {
    site: Option<&'a Site>,
    hosts: &'a HostOrders,
    /// Whether files are to have tags.
    tagged: bool,
    /// The host of that site under whose root those that come next are looked for.
    host: usize,
    /// Where the next is looked for first: behind the last that was found.
    next: usize,
}

/// What the file at the place of the site has, where these are its bytes, and it has a tag where one is wanted.
fn shared_at(site: &Site, place: usize, bytes: &[u8], tagged: bool) -> Option<Arc<Body>>
    ensures { IfSome result (λ body. arc_value body ≡ bytes.now) }
{
    let files = site.files();
    if place < files.len() {
        files[place].shared(bytes, tagged)
    } else {
        None
    }
}

/// The place of the site's file of that name for that host.
fn place_for(site: &Site, host: usize, name: &[u8]) -> Option<usize> {
    if host >= site.host_count() {
        return None;
    }
    let place = place_of_file(site.files_of(host as u32), name, b"")?;
    let first = site.part_of(host as u32).first as usize;
    Some(first.saturating_add(place))
}

impl<'a> Past<'a> {
    /// The site of before, where there is one, for a site of these hosts, whose files have tags or none.
    pub fn of(site: Option<&'a Site>, hosts: &'a HostOrders, tagged: bool) -> Past<'a> {
        Past {
            site,
            hosts,
            tagged,
            host: 0,
            next: 0,
        }
    }

    /// Looks for the files under that root from now on: under that of the old host at the place of the first that has it.
    pub fn turn_to(&mut self, root: &[u8]) {
        let hosts = self.hosts.as_slice();
        let place = hosts.iter().position(|host| host.root.as_slice() == root);
        self.host = place.unwrap_or(hosts.len());
    }

    /// What the old site has for a file of that name, where it has these bytes. It is looked for behind the last that was found, and else by
    /// its name.
    fn shared(&mut self, name: &[u8], bytes: &[u8]) -> Option<Arc<Body>>
        ensures { IfSome result (λ body. arc_value body ≡ bytes.now) }
    {
        let site = self.site?;
        let first = self.next;
        if let Some(body) = shared_at(site, first, bytes, self.tagged) {
            self.next = first.saturating_add(1);
            return Some(body);
        }
        let place = place_for(site, self.host, name)?;
        self.next = place.saturating_add(1);
        if place == first {
            return None;
        }
        shared_at(site, place, bytes, self.tagged)
    }

    /// A file of that name with these bytes, which it shares with the old site where that has them.
    pub fn file_of(
        &mut self,
        alloc: Global,
        name: Octets,
        bytes: Octets,
        second: Second,
    ) -> Result<SiteFile, NoMemory>
        ensures { IfOk result
            (λ file. file ≡ record { name = name; bytes = bytes; second = second }) }
    {
        let body = match self.shared(name.as_slice(), bytes.as_slice()) {
            Some(body) => body,
            None => Body::of(alloc, bytes, self.tagged)?,
        };
        Ok(SiteFile::of(name, body, second))
    }
}
