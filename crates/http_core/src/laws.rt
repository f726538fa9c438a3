//! Laws of what requests are served. Each is the contract of a function that does nothing.
ghost use Rattle.http_read.specs.RequestParts.{RequestParts};
ghost use Rattle.file_table.specs.Site.{SeenSite};
ghost use Rattle.http_core.specs.Ask.{IsServedFor};
ghost use Rattle.http_core.specs.ConditionLaws.{ConditionsCountForFiles};
ghost use Rattle.http_core.specs.Served.{chosen_host, served_to};

use file_table::laws::hosts_have_their_files;

/// A file that a request is served, whole or in part, is one that the host has which the request is for.
pub fn served_files_are_of_the_chosen_host()
    ensures { (site : SeenSite) (r : RequestParts)
        → IsServedFor site (chosen_host site r) (served_to site r) }
{
    hosts_have_their_files();
}

/// Conditions count for files alone, and only where files have marks: 304 and 412 answer a request that is sent a whole file without its
/// conditions and its Range, and that file, a part of it, or that it has no such part without its conditions alone; 304 comes only where the
/// client says that it has that file, 412 only where it has it in mind otherwise, and a part behind an If-Range only where that is the tag of
/// the file's bytes.
pub fn conditions_count_for_files()
    ensures { ConditionsCountForFiles }
{
    hosts_have_their_files();
}
