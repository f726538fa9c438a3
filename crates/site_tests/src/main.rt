//! Tests of the site, by public calls alone: of configurations, of the one that a script writes, of the files of a site, what
//! paths name, its bounds and its search, of restarts, and of command lines. The file `stdin` has what is asked, and `stdout` what must come
//! of it, row by row.
//!
//! In the input a line that begins with `== ` begins a section: the word behind it says what its rows are, and the rest is its title.
//! In a row of a configuration or a script `|` stands for a line feed, and a number and a text between backquotes for the text so many
//! times.
//!
//! - `numbers`, `corrected`, `shape`, `values`, `hosts`, `marks`, `media`, `warnings`: configurations, and what of each is shown where it
//!   isn't refused.
//! - `bytes`: configurations, as the numbers of their bytes. `long`: directives, and how many bytes the name behind each has.
//! - `restart`: configurations and, behind ` => `, the ones that follow them.
//! - `script`: scripts, whose configuration is shown as it is first and later.
//! - `paths`: names of files up to a row `--`, and paths that are asked of the site of these files, each of which has its name as its
//!   bytes. `calls`: such names, and calls of the store that fail.
//! - `sites`: files, each perhaps with the second in which it was changed and its bytes, up to a row `--`, those of the next edition up to a
//!   further one, and configurations, each perhaps with the one behind ` => ` by which the server is restarted. Of each file of the site the
//!   type is shown, and the tag and the second where they count.
//! - `choices`: hosts, a row each with its names (`-` for none), up to a row `--`, and values of a Host, each of which is shown without
//!   its port, with the number of the host that it chooses. `host-paths`: a row of three hosts with `|` between
//!   them, each a root and an index, whole names of files up to a row `--`, and paths, each behind the number of a host. `host-sizes`:
//!   such hosts, and behind ` : ` files, as names and sizes. `host-crowd`: no rows, for a store of 65,537 files under the root of a second host.
//! - `sizes`: sites, as names and sizes with `|` between them.
//! - `reload`: names of files up to a row `--`, and configurations of a running server, each with the one behind ` => ` that it finds
//!   beside these files when it is restarted, or without one. `reload-sizes`: what it finds, as names and sizes. `reload-calls`: such
//!   names, and calls of the store that fail in the first of two restarts. `reload-crowd`: no rows, as for `crowd`.
//! - `crowd`: no rows, for a store of 65,537 files. `search`: names in two parts with `|` between them, which are looked for among 65,536.
//! - `words`: command lines. A row begins with `$`; its words stand behind it, each after one space, and `''` is an empty word.
//!
//! With `rt try --fail-alloc N` the Nth allocation fails, for each N. A section `words` then ends with an error, or it prints what it prints
//! otherwise.
#![tactic(auto)]

mod command_lines;
mod configurations;
mod configured_types;
mod hosts;
mod loads;
mod paths;
mod reloads;
mod scripts;
mod search;
mod sites;

use mpm_base::NoMemory;
use std::alloc::Global;
use std::io;
use test_rows::{Section, Sheet, grown, open_section, sections_of};

fn main(rt: HostRuntime) -> io::Result<()> {
    let input = io::read_to_string(rt.alloc(), rt.reader())?;
    for text in sections_of(input.as_str()) {
        let sheet = grown(sheet_of(rt.alloc(), text))?;
        sheet.show(&rt)?;
    }
    Ok(())
}

/// What comes of the section of this text.
fn sheet_of(alloc: Global, text: &str) -> Result<Sheet, NoMemory> {
    let mut sheet = Sheet::make(alloc);
    let section = open_section(&mut sheet, text);
    match show_section(&mut sheet, alloc, section) {
        Ok(()) => Ok(sheet),
        Err(NoMemory) => Err(NoMemory),
    }
}

/// Shows what comes of the rows of the section.
fn show_section(sheet: &mut Sheet, alloc: Global, section: Section<'_>) -> Result<(), NoMemory> {
    let Section { word, rows, .. } = section;
    match word {
        "restart" => configurations::show_restarts(sheet, alloc, rows),
        "script" => scripts::show_scripts(sheet, alloc, rows),
        "paths" => paths::show_paths(sheet, alloc, rows),
        "sites" => sites::show_sites(sheet, alloc, rows),
        "choices" => hosts::show_choices(sheet, alloc, rows),
        "host-paths" => hosts::show_host_paths(sheet, alloc, rows),
        "host-sizes" => hosts::show_host_sizes(sheet, alloc, rows),
        "host-crowd" => hosts::show_host_crowd(sheet, alloc),
        "calls" => loads::show_calls(sheet, alloc, rows),
        "sizes" => loads::show_sizes(sheet, alloc, rows),
        "reload" => reloads::show_restarts(sheet, alloc, rows),
        "reload-sizes" => reloads::show_sizes(sheet, alloc, rows),
        "reload-calls" => reloads::show_calls(sheet, alloc, rows),
        "reload-crowd" => {
            reloads::show_crowd(sheet, alloc);
            Ok(())
        }
        "crowd" => {
            loads::show_crowd(sheet, alloc);
            Ok(())
        }
        "search" => search::show_search(sheet, alloc, rows),
        "words" => command_lines::show_forms(sheet, alloc, rows),
        _ => configurations::show_rows(sheet, alloc, word, rows),
    }
}
