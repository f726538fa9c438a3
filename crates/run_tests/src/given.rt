//! What a run is given: its store, its output, and the script of its front.
use crate::case::Case;
use failing_stand_ins::{MemSink, MemStore};
use mpm_base::NoMemory;
use mpm_script::{Script, ScriptFault, read_script};
use stand_ins::{Calls, Files};
use std::alloc::Global;
use std::mem;

/// The store and the output of a run.
#[derive(Drop)]
pub struct Given {
    /// The store.
    pub store: MemStore,
    /// The output.
    pub out: MemSink,
}

/// The store and the output of the run, which has none of their files and calls then.
pub fn given_of(alloc: Global, case: &mut Case) -> Result<Given, NoMemory> {
    let mut given = Given {
        store: store_of(alloc, case),
        out: output_of(alloc, case),
    };
    match add_editions(alloc, &mut given.store, case) {
        Ok(()) => Ok(given),
        Err(NoMemory) => Err(NoMemory),
    }
}

/// The store of the run, without its later editions.
fn store_of(alloc: Global, case: &mut Case) -> MemStore {
    let files = mem::replace(&mut case.files, Files::make(alloc));
    let fails = mem::replace(&mut case.bad_reads, Calls::make(alloc));
    MemStore::make(alloc, files, fails)
}

/// The output of the run, which takes single bytes where it is slow.
fn output_of(alloc: Global, case: &mut Case) -> MemSink {
    let fails = mem::replace(&mut case.bad_writes, Calls::make(alloc));
    if case.slow {
        MemSink::slow(alloc, fails)
    } else {
        MemSink::make(alloc, fails)
    }
}

/// Gives the store the later editions of the run.
fn add_editions(alloc: Global, store: &mut MemStore, case: &mut Case) -> Result<(), NoMemory> {
    for files in case.later.iter_mut() {
        store.later(mem::replace(files, Files::make(alloc)))?;
    }
    Ok(())
}

/// The script of the front of the run, where it has one.
pub fn script_of(alloc: Global, case: &Case) -> Result<Option<Script>, ScriptFault> {
    match &case.front {
        Some(name) => Ok(Some(script_in(alloc, &case.files, name.as_str())?)),
        None => Ok(None),
    }
}

/// The script of the file of that name.
fn script_in(alloc: Global, files: &Files, name: &str) -> Result<Script, ScriptFault> {
    match files.get(name) {
        Some(content) => read_script(alloc, content.bytes.as_slice()),
        None => Err(ScriptFault::BadLine(0)),
    }
}
