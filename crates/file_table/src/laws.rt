//! A law of the files that hosts have. It is the contract of a function that does nothing.
ghost use Rattle.file_table.specs.HostFiles.{HostsHaveTheirFiles};

/// A file that is found for a host is one of those that the store has under the host's root; and hosts that share a place in the site have
/// one root. A file under two roots, one of which lies in the other, has a place for each.
pub fn hosts_have_their_files()
    ensures { HostsHaveTheirFiles }
{}
