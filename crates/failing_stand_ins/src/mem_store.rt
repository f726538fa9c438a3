//! A store in memory some of whose calls fail.
ghost use Rattle.std.specs.Prelude.{◌≡◌, Some, OnOk, OnErr};
ghost use Rattle.mpm_base.specs.Store.{Renews, ListsNames, ReadsFile, after_renew, content_of, names_under, telling_store};
ghost use Rattle.stand_ins.specs.PlainStore.{with_edition, file_answer, names_answer, AnswersUnlessNoMemory};
ghost use Rattle.stand_ins.specs.Calls.{next_is_listed};
ghost use Rattle.failing_stand_ins.specs.MemStore.{new_mem_store, failed_where, mem_store_after};

use mpm_base::{Content, Names, NoMemory, Store, StoreFault};
use stand_ins::{Calls, Files, PlainStore};
use std::alloc::Global;
use std::marker::Model;

/// A folder of files, and its later editions, whose listed calls fail.
#[derive(Drop)]
pub struct MemStore {
    inner: PlainStore,
    made_calls: u64,
    bad_calls: Calls,
    failures: u64,
}

impl Model for MemStore {
    ghost use Rattle.failing_stand_ins.specs.MemStore.{SeenMemStore};

    ghost Value = { SeenMemStore };

    ghost view = { λ s. record {
      told = s.inner.told;
      counts = record s.inner.counts { faults = s.failures };
      calls = s.made_calls;
      fails = s.bad_calls;
    } };
}

impl MemStore {
    /// A store of these files, which no edition follows. The calls of the listed numbers fail; `names` and
    /// `read` count together, whatever they answer, and `renew` doesn't count.
    pub fn make(alloc: Global, files: Files, fails: Calls) -> MemStore
        ensures { result ≡ new_mem_store files fails }
    {
        MemStore {
            inner: PlainStore::make(alloc, files),
            made_calls: 0,
            bad_calls: fails,
            failures: 0,
        }
    }

    /// Puts an edition behind all others. Where memory lacks nothing changes, and the files are dropped.
    pub fn later(&mut self, files: Files) -> Result<(), NoMemory>
        ensures ok { OnOk result
            (self.new ≡ record self.old { told = with_edition files self.old.told }) }
        ensures err { OnErr result (self.new ≡ self.old) }
    {
        self.inner.later(files)
    }

    /// How many calls failed.
    pub fn faults(&self) -> u64
        ensures { result ≡ self.now.counts.faults }
    {
        self.failures
    }
}

impl Store for MemStore {
    ghost seen = { λ s. telling_store s.told s.counts };

    fn renew(&mut self)
        ensures store { Renews (telling_store self.old.told self.old.counts)
            (telling_store self.new.told self.new.counts) }
        ensures state { self.new ≡ record self.old { told = after_renew self.old.told } }
    {
        self.inner.renew();
    }

    /// Answers Failed where the call is listed, then Many where there are more names, and else the names or
    /// NoMemory.
    fn names(&mut self, alloc: Global, under: &str, most: u32) -> Result<Names, StoreFault>
        ensures store { ListsNames (telling_store self.old.told self.old.counts)
            (telling_store self.new.told self.new.counts) under.now most result }
        ensures answer { AnswersUnlessNoMemory result
            (failed_where (next_is_listed self.old.fails self.old.calls)
            (names_answer (names_under under.now self.old.told.files) most)) }
        ensures state { self.new ≡ mem_store_after result self.old }
    {
        self.made_calls = self.made_calls.saturating_add(1);
        if self.bad_calls.has(self.made_calls) {
            self.failures = self.failures.saturating_add(1);
            return Err(StoreFault::Failed);
        }
        self.inner.names(alloc, under, most)
    }

    /// Answers Failed where the call is listed, then Missing where the file isn't there, Large where it has
    /// more bytes, and else what it has or NoMemory.
    fn read(&mut self, alloc: Global, name: &str, most: u64) -> Result<Content, StoreFault>
        ensures store { ReadsFile (telling_store self.old.told self.old.counts)
            (telling_store self.new.told self.new.counts) name.now most result }
        ensures answer { AnswersUnlessNoMemory result
            (failed_where (next_is_listed self.old.fails self.old.calls)
            (file_answer (content_of name.now self.old.told.files) most)) }
        ensures state { self.new ≡ mem_store_after result self.old }
    {
        self.made_calls = self.made_calls.saturating_add(1);
        if self.bad_calls.has(self.made_calls) {
            self.failures = self.failures.saturating_add(1);
            return Err(StoreFault::Failed);
        }
        self.inner.read(alloc, name, most)
    }
}
