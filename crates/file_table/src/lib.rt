//! The files of a site, held in memory: which file a path names for a host, and its bytes, content type, entity tag and last change.
//!
//! `load` takes the files under the roots of the hosts from a store, each root once, and answers their site, or for each refusal
//! its cause (`specs/Site.antt`, `Load.antt`). `find` answers exactly what a path names for a host (`specs/Path.antt`,
//! `Resource.antt`): it searches the names of the files that the host has by halves (`specs/Order.antt`), and takes memory only
//! where the path is no plain one or names a folder without its slash. `count_before` is that search, of anything that has a
//! name. `hosts`, `bytes`, `content_type`, `entity_tag` (`specs/Tag.antt`) and `last_change` hand out what the site holds. Tags, and the places of
//! types in the table of `media_types`, are found once a file, and with `load_again` a file takes over the bytes of an old site and their
//! tag where it has the same. That each host has the files under its own root stands in `laws` (`specs/HostFiles.antt`).
#![tactic(auto)]

mod found;
mod found_once;
pub mod laws;
mod load_fault;
mod loading;
mod marks;
mod part;
mod past;
mod path;
mod reading;
mod resource;
mod search;
mod site;
mod site_file;
mod site_order;
mod tag;

pub use found::Found;
pub use load_fault::LoadFault;
pub use loading::{load, load_again};
pub use marks::Marks;
pub use part::Part;
pub use resource::find;
pub use search::{Named, count_before};
pub use site::{Host, Site, bytes, content_type, entity_tag, hosts, last_change};
pub use site_file::SiteFile;
pub use site_order::{HostOrder, HostOrders, SiteOrder};
