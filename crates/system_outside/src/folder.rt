//! The current folder as a store.
//! Why it is so stands in docs/DECISIONS.md: 99, Where a server looks for its files.
ghost use Rattle.std.specs.Prelude.{◌≡◌, None, IfErr, IfOk, OnOk, MatchResult, Ok, Err, length};
ghost use Rattle.std.specs.IoError.{error_kind};
ghost use Rattle.std.specs.Fs.{IsFile, file_type, metadata_len};
ghost use Rattle.mpm_base.specs.Count.{RisesWhere};
ghost use Rattle.mpm_base.specs.declared.store.StoreFault.TheVariants as fault;
ghost use Rattle.mpm_base.specs.Store.{MayRead, is_failure, is_refusal};
ghost use Rattle.system_outside.specs.Fault.{fault_for, size_within};

use crate::changed::second_told;
use crate::fault::{check_file, fault_of};
use crate::listing::list;
use crate::operator::Operator;
use crate::whole_file::{Reading, read_whole};
use mpm_base::{Content, Names, Store, StoreFault};
use std::alloc::Global;
use std::fs::{Metadata, OpenFile};
use std::rt::Files;
use std::{fs, io};

/// How many bytes of a file are asked for at once.
const PIECE: usize = 65_536;

/// The current folder. It tells nothing; the operator hears of each error of the system.
#[derive(Drop)]
pub struct Folder<'a, R: Files + Eprint> {
    rt: &'a R,
    operator: &'a Operator<'a, R>,
    buffer: Vec<u8>,
    faults: u64,
    refusals: u64,
}

impl<'a, R: Files + Eprint> Folder<'a, R> {
    /// The folder that the runtime stands in.
    pub fn new(rt: &'a R, operator: &'a Operator<'a, R>, alloc: Global) -> Folder<'a, R> {
        Folder {
            rt,
            operator,
            buffer: Vec::new(alloc),
            faults: 0,
            refusals: 0,
        }
    }

    /// Counts the fault as a failed call or as a refusal.
    fn count(&mut self, fault: StoreFault)
        ensures faults { RisesWhere (is_failure fault) self.old.faults self.new.faults }
        ensures refusals { RisesWhere (is_refusal fault) self.old.refusals self.new.refusals }
    {
        match fault {
            StoreFault::Missing | StoreFault::Large(_) | StoreFault::Many => {
                self.refusals = self.refusals.saturating_add(1);
            }
            StoreFault::Failed => self.faults = self.faults.saturating_add(1),
            StoreFault::NoMemory => (),
        }
    }
}

impl<'a, R: Files + AllocGlobal + Eprint + Clone + Drop> Store for Folder<'a, R> {
    ghost seen = { λ f. record {
      told = None;
      counts = record { faults = f.faults; refusals = f.refusals };
    } };

    fn renew(&mut self) {}

    fn names(&mut self, alloc: Global, under: &str, most: u32) -> Result<Names, StoreFault> {
        match list(self.rt, self.operator, alloc, under, most) {
            Ok(names) => Ok(names),
            Err(fault) => {
                self.count(fault);
                Err(fault)
            }
        }
    }

    fn read(&mut self, alloc: Global, name: &str, most: u64) -> Result<Content, StoreFault> {
        match read_file(self.rt, self.operator, alloc, name, &mut self.buffer, most) {
            Ok(content) => Ok(content),
            Err(fault) => {
                self.count(fault);
                Err(fault)
            }
        }
    }
}

/// What the file has, of at most so many bytes. The operator hears why a file can't be read, but for its size and for want of memory. Its
/// last change is that of the file that was opened, so that a file which another takes the place of meanwhile has its own.
fn read_file<R: Files + Eprint>(
    rt: &R,
    operator: &Operator<'_, R>,
    alloc: Global,
    name: &str,
    buffer: &mut Vec<u8>,
    most: u64,
) -> Result<Content, StoreFault>
    ensures { MayRead None most result }
{
    check_opening(operator, name, fs::metadata(rt, name), most)?;
    take_room(buffer)?;
    let file = found(operator, name, fs::open(rt, name))?;
    let second = second_told(file.metadata());
    let mut reading = Reading::of(file);
    let answer = read_whole(alloc, &mut reading, buffer.as_mut_slice(), most);
    if let Some(error) = reading.error() {
        operator.hear_of_fault("read", name, error);
    }
    match answer {
        Ok(bytes) => Ok(Content { bytes, second }),
        Err(fault) => Err(fault),
    }
}

/// Refuses to open what isn't a regular file of at most so many bytes, by what the system told of it just before. The operator hears why, but
/// for its size.
pub fn check_opening<R: Eprint>(
    operator: &Operator<'_, R>,
    name: &str,
    told: io::Result<Metadata>,
    most: u64,
) -> Result<(), StoreFault>
    ensures file { IfOk told (λ m. IsFile (file_type m)
        → result ≡ size_within most (metadata_len m)) }
    ensures other { IfOk told (λ m. ¬ IsFile (file_type m) → result ≡ Err fault.Missing) }
    ensures untold { IfErr told (λ e. result ≡ Err (fault_for (error_kind e))) }
{
    let metadata = found(operator, name, told)?;
    if !metadata.is_file() {
        operator.hear_of_fault("read", name, "not a regular file");
    }
    check_file(&metadata, most)
}

/// What the system told of the file of that name. The operator hears of an error.
fn found<T, R: Eprint>(
    operator: &Operator<'_, R>,
    name: &str,
    told: io::Result<T>,
) -> Result<T, StoreFault>
    ensures { MatchResult told
        (λ file. result ≡ Ok file)
        (λ e. result ≡ Err (fault_for (error_kind e))) }
{
    match told {
        Ok(file) => Ok(file),
        Err(error) => {
            let fault = fault_of(&error);
            operator.hear_of_fault("read", name, error);
            Err(fault)
        }
    }
}

/// Takes the room for one piece, at the first read alone.
fn take_room(buffer: &mut Vec<u8>) -> Result<(), StoreFault>
    ensures room { OnOk result (length buffer.new.items ≡ 65536) }
    ensures fault { IfErr result (λ e. e ≡ fault.NoMemory) }
{
    match buffer.resize(PIECE, 0) {
        Ok(()) => Ok(()),
        Err(_) => Err(StoreFault::NoMemory),
    }
}
