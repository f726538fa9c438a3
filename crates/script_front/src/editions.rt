//! The store of a script: its files at the opening, and at each `command graceful`.
//!
//! Which files those are stands in `specs/Editions.antt`. The file `httpd.conf` is always there, empty where no line says
//! otherwise: it is the configuration. Each line is read once, and an edition shares with the one before it what didn't change.
//! Why it is so stands in docs/DECISIONS.md: 15, The editions of a script.
ghost use Rattle.std.specs.Prelude.{◌≡◌, ◌≤◌, List, Some, [], ◌∷◌, ◌++◌, length, All, IsSome, IfOk, OnOk, if◌then◌else◌};
ghost use Rattle.std.specs.List.{fold, prefix_len};
ghost use Rattle.mpm_base.specs.Store.{bytes_of};
ghost use Rattle.mpm_base.specs.declared.store.File.{File as SeenFile};
ghost use Rattle.mpm_base.specs.declared.script_line.ScriptLine.{ScriptLine as Line};
ghost use Rattle.mpm_script.specs.FileNames.{HasTextName, HaveTextNames};
ghost use Rattle.script_front.specs.Editions.{after_line, conf_after, conf_file, conf_name, conf_of, edition_of, editions_behind, editions_of, filed_by, is_graceful, is_site, opening_lines, site_in, store_of};

use crate::draft::Draft;
use mpm_base::{CommandWord, NoMemory, ScriptLine};
use mpm_script::Script;
use stand_ins::PlainStore;
use std::alloc::Global;

/// The store of the script. Its first edition has the effect of the lines of the site before all others, and is there from
/// the start; each later one has that of all lines of the site before a `command graceful`, and comes with `renew`. No call
/// of it fails, as of any such store.
pub fn script_store(alloc: Global, script: &Script) -> Result<PlainStore, NoMemory>
    requires { HaveTextNames script.now }
    ensures { IfOk result (λ store. store ≡ store_of script.now) }
{
    let lines = script.lines();
    let (opening, behind) = lines.split_at(opening_len(lines));
    let mut draft = Draft::make(alloc)?;
    take_opening(&mut draft, opening)?;
    take_lines(&mut draft, opening, behind)?;
    PlainStore::of_history(alloc, draft.into_history())
}

/// A law of the editions of a script: each has the file of the configuration. The first one's is what the lines of the site
/// before all others make of it.
pub fn editions_have_a_configuration()
    ensures opening { (lines : List Line) →
        bytes_of conf_name (editions_of lines).files ≡ Some (conf_of (opening_lines lines)) }
    ensures later { (lines : List Line) →
        All (λ (files : List SeenFile). IsSome (bytes_of conf_name files))
        (editions_of lines).later }
{}

/// How many lines of the site stand before the first other line.
fn opening_len(lines: &[ScriptLine]) -> usize
    ensures is { result ≡ prefix_len is_site lines.now }
    ensures within { result ≤ length lines.now }
{
    lines.iter().take_while(|line| is_site(line)).count()
}

fn is_site(line: &ScriptLine) -> bool
    ensures { result ≡ is_site line.now }
{
    matches!(line, ScriptLine::Site(_))
}

fn is_graceful(line: &ScriptLine) -> bool
    ensures { result ≡ is_graceful line.now }
{
    matches!(line, ScriptLine::Command(CommandWord::Graceful))
}

/// The lines of the opening happen to an empty site, and its edition ends.
fn take_opening(draft: &mut Draft, lines: &[ScriptLine]) -> Result<(), NoMemory>
    requires names { HaveTextNames lines.now }
    requires empty { draft.old
        ≡ record { past = []; conf = []; filed = record { moment = 0; files = [] } } }
    ensures { OnOk result (draft.new ≡ record {
      past = edition_of lines.now ∷ [];
      conf = conf_of lines.now;
      filed = filed_by lines.now;
    }) }
{
    for line in lines {
        change(draft, line)?;
    }
    draft.end()
}

/// The lines behind the opening happen, and the editions end that end with them.
fn take_lines(
    draft: &mut Draft,
    opening: &[ScriptLine],
    lines: &[ScriptLine],
) -> Result<(), NoMemory>
    requires names { HaveTextNames lines.now }
    requires conf { draft.old.conf ≡ conf_of opening.now }
    requires filed { draft.old.filed ≡ filed_by opening.now }
    ensures { OnOk result
        (draft.new.past ≡ draft.old.past ++ editions_behind opening.now lines.now) }
{
    for line in lines {
        take_line(draft, line)?;
    }
    Ok(())
}

/// The same of one line.
fn take_line(draft: &mut Draft, line: &ScriptLine) -> Result<(), NoMemory>
    requires { HasTextName line.now }
    ensures past { OnOk result (draft.new.past ≡ (if is_graceful line.now
        then draft.old.past ++ (conf_file draft.old.conf ∷ draft.old.filed.files) ∷ []
        else draft.old.past)) }
    ensures conf { OnOk result
        (draft.new.conf ≡ fold conf_after draft.old.conf (site_in line.now)) }
    ensures filed { OnOk result (draft.new.filed ≡ after_line draft.old.filed line.now) }
{
    if is_graceful(line) {
        return draft.end();
    }
    change(draft, line)
}

/// What the line does to the site and to the moment happens.
fn change(draft: &mut Draft, line: &ScriptLine) -> Result<(), NoMemory>
    requires { HasTextName line.now }
    ensures { OnOk result (draft.new ≡ record draft.old {
      conf = fold conf_after draft.old.conf (site_in line.now);
      filed = after_line draft.old.filed line.now;
    }) }
{
    match line {
        ScriptLine::Site(site) => draft.change(site),
        ScriptLine::At(moment) => {
            draft.go_to(*moment);
            Ok(())
        }
        _ => Ok(()),
    }
}
