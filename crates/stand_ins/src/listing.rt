//! What files are listed, and what a file has.
ghost use Rattle.std.specs.Prelude.{◌≡◌, count_by, All, IsUtf8, IfOk, true};
ghost use Rattle.mpm_base.specs.Store.{content_of, lies_under, names_under};
ghost use Rattle.stand_ins.specs.FilesInside.{is_listed, names_in};
ghost use Rattle.stand_ins.specs.PlainStore.{file_answer, names_answer, AnswersUnlessNoMemory};

use crate::shelf::Shelf;
use crate::slot::Slot;
use mpm_base::{Content, Names, NoMemory, Octets, StoreFault};
use std::alloc::Global;

/// What a file has, of at most so many bytes.
pub(crate) fn read_file(
    alloc: Global,
    shelf: &Shelf,
    name: &str,
    most: u64,
) -> Result<Content, StoreFault>
    ensures { AnswersUnlessNoMemory result
        (file_answer (content_of name.now shelf.now.files) most) }
{
    let Some(content) = shelf.get(name.as_bytes()) else {
        return Err(StoreFault::Missing);
    };
    let size = content.bytes.len() as u64;
    if most < size {
        return Err(StoreFault::Large(size));
    }
    match Octets::of(alloc, content.bytes.as_slice()) {
        Ok(bytes) => Ok(Content {
            bytes,
            second: content.second.copy(),
        }),
        Err(NoMemory) => Err(StoreFault::NoMemory),
    }
}

/// How many names lie below a folder.
fn count_names(slots: &[Slot], folder: &str) -> usize
    ensures { result ≡ count_by (is_listed folder.now) slots.now }
{
    slots.iter().filter(|slot| slot.is_listed(folder)).count()
}

/// The names below a folder.
fn copy_names(alloc: Global, slots: &[Slot], folder: &str) -> Result<Names, NoMemory>
    ensures { IfOk result (λ names. names ≡ names_in folder.now slots.now) }
{
    let mut names = Names::make(alloc);
    for slot in slots {
        if slot.is_listed(folder) {
            names.push(Octets::of(alloc, slot.name.as_slice())?)?;
        }
    }
    Ok(names)
}

/// The names below a folder, at most so many.
pub(crate) fn list_names(
    alloc: Global,
    shelf: &Shelf,
    folder: &str,
    most: u32,
) -> Result<Names, StoreFault>
    ensures answer { AnswersUnlessNoMemory result
        (names_answer (names_under folder.now shelf.now.files) most) }
    ensures utf8 { IfOk result (λ names. All IsUtf8 names) }
    ensures below { IfOk result (All (λ name. lies_under folder.now name ≡ true)) }
{
    let slots = shelf.slots();
    if count_names(slots, folder) > most as usize {
        return Err(StoreFault::Many);
    }
    match copy_names(alloc, slots, folder) {
        Ok(names) => Ok(names),
        Err(NoMemory) => Err(StoreFault::NoMemory),
    }
}
