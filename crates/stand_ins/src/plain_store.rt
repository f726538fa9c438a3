//! A store in memory that never fails.
//! Why it is so stands in docs/DECISIONS.md: 87, A script's store is the plain one.
ghost use Rattle.std.specs.Prelude.{◌≡◌, Some, IfOk, OnOk, OnErr};
ghost use Rattle.mpm_base.specs.Store.{Renews, ListsNames, ReadsFile, after_renew, content_of, names_under, is_refusal, answers_with, telling_store};
ghost use Rattle.stand_ins.specs.History.{told_past};
ghost use Rattle.stand_ins.specs.PlainStore.{no_store_counts, only_files, with_edition, file_answer, names_answer, AnswersUnlessNoMemory, count_answer};

use crate::editions::Editions;
use crate::files::Files;
use crate::history::History;
use crate::listing::{list_names, read_file};
use mpm_base::{Content, Names, NoMemory, Store, StoreFault};
use std::alloc::Global;
use std::marker::Model;

/// A folder of files, and its later editions. No call of it fails.
#[derive(Drop)]
pub struct PlainStore {
    editions: Editions,
    refused: u64,
}

impl Model for PlainStore {
    ghost use Rattle.stand_ins.specs.PlainStore.{SeenStore};

    ghost Value = { SeenStore };

    ghost view = { λ s. record {
      told = s.editions;
      counts = record { faults = 0; refusals = s.refused };
    } };
}

impl PlainStore {
    /// A store of these files, which no edition follows.
    pub fn make(alloc: Global, files: Files) -> PlainStore
        ensures { result ≡ record { told = only_files files; counts = no_store_counts } }
    {
        PlainStore {
            editions: Editions::make(alloc, files),
            refused: 0,
        }
    }

    /// A store of the editions that ended in the history, which is at the first one. Where none did it has no file. No later call
    /// but those that copy names and bytes needs memory.
    pub fn of_history(alloc: Global, history: History) -> Result<PlainStore, NoMemory>
        ensures { IfOk result (λ store.
            store ≡ record { told = told_past history.past; counts = no_store_counts }) }
    {
        Ok(PlainStore {
            editions: Editions::of(alloc, history)?,
            refused: 0,
        })
    }

    /// Puts an edition behind all others. Where memory lacks nothing changes, and the files are dropped.
    pub fn later(&mut self, files: Files) -> Result<(), NoMemory>
        ensures ok { OnOk result
            (self.new ≡ record self.old { told = with_edition files self.old.told }) }
        ensures err { OnErr result (self.new ≡ self.old) }
    {
        self.editions.later(files)
    }

    /// How many calls failed, which none does.
    pub fn faults(&self) -> u64
        ensures count { result ≡ self.now.counts.faults }
        ensures none { result ≡ 0 }
    {
        let _ = &self.refused;
        0
    }
}

/// Whether the call was refused for what the files are.
fn was_refused<T>(answer: &Result<T, StoreFault>) -> bool
    ensures { result ≡ answers_with is_refusal answer.now }
{
    matches!(
        answer,
        Err(StoreFault::Missing | StoreFault::Large(_) | StoreFault::Many)
    )
}

impl Store for PlainStore {
    ghost seen = { λ s. telling_store s.told s.counts };

    fn renew(&mut self)
        ensures store { Renews (telling_store self.old.told self.old.counts)
            (telling_store self.new.told self.new.counts) }
        ensures state { self.new ≡ record self.old { told = after_renew self.old.told } }
    {
        self.editions.renew();
    }

    /// Answers Many where there are more names, and else the names or NoMemory.
    fn names(&mut self, alloc: Global, under: &str, most: u32) -> Result<Names, StoreFault>
        ensures store { ListsNames (telling_store self.old.told self.old.counts)
            (telling_store self.new.told self.new.counts) under.now most result }
        ensures answer { AnswersUnlessNoMemory result
            (names_answer (names_under under.now self.old.told.files) most) }
        ensures state { self.new
            ≡ record self.old { counts = count_answer result self.old.counts } }
    {
        let answer = list_names(alloc, self.editions.shelf(), under, most);
        if was_refused(&answer) {
            self.refused = self.refused.saturating_add(1);
        }
        answer
    }

    /// Answers Missing where the file isn't there, Large where it has more bytes, and else what it has or
    /// NoMemory.
    fn read(&mut self, alloc: Global, name: &str, most: u64) -> Result<Content, StoreFault>
        ensures store { ReadsFile (telling_store self.old.told self.old.counts)
            (telling_store self.new.told self.new.counts) name.now most result }
        ensures answer { AnswersUnlessNoMemory result
            (file_answer (content_of name.now self.old.told.files) most) }
        ensures state { self.new
            ≡ record self.old { counts = count_answer result self.old.counts } }
    {
        let answer = read_file(alloc, self.editions.shelf(), name, most);
        if was_refused(&answer) {
            self.refused = self.refused.saturating_add(1);
        }
        answer
    }
}
