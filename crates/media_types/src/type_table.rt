//! The types of an operator, made ready for names to be looked up in them.
ghost use Rattle.std.specs.Prelude.{◌≡◌, ◌==◌, ◌++◌, ℕ, List, length, map, reverse, position, Some, IfOk, OnOk, option_map};
ghost use Rattle.std.specs.List.{position_or_len};
ghost use Rattle.media_types.specs.MediaType.{extension_of, is_pair_of, type_of_name};
ghost use Rattle.media_types.specs.PairsInside.{ArePairsOf, pair_sent};
ghost use Rattle.media_types.specs.Places.{place_of_name};

use crate::tables::{add_pair, add_table};
use crate::types::{MediaTypes, TypePair};
use mpm_base::{NoMemory, Octets, is_same_ignoring_case};
use std::alloc::Global;
use std::marker::Model;

/// The types that an operator asks for, as contracts see it. It keeps each pair with its type as it is sent, in the order in which they
/// count.
#[derive(Debug, Drop)]
pub struct TypeTable {
    types: MediaTypes,
    pairs: Vec<TypePair>,
}

impl Model for TypeTable {
    ghost use Rattle.media_types.specs.declared.types.MediaTypes.{MediaTypes};
    ghost use Rattle.media_types.specs.PairsInside.{ArePairsOf};

    ghost Value = { MediaTypes };

    ghost view = { λ t. t.types };

    ghost invariant = { λ t. ArePairsOf t.types t.pairs.items };
}

impl TypeTable {
    /// A table of these types.
    pub fn of(alloc: Global, types: &MediaTypes) -> Result<TypeTable, NoMemory>
        ensures { IfOk result (λ table. table ≡ types.now) }
    {
        let types = types.copy(alloc)?;
        let pairs = pairs_of(alloc, &types)?;
        Ok(TypeTable { types, pairs })
    }

    /// The place of the type of a file of that name.
    pub fn place_of(&self, name: &[u8]) -> usize
        ensures { result ≡ place_of_name self.now name.now }
    {
        match extension_of(name) {
            Some(extension) => place_of_pair(&self.pairs, extension),
            None => self.pairs.len(),
        }
    }

    /// The type at the place: that of each name that has this place. Takes no memory, and compares nothing.
    pub fn type_at(&self, place: usize) -> &[u8]
        ensures { (name : List ℕ) → place ≡ place_of_name self.now name
            → result.now ≡ type_of_name self.now name }
    {
        if place < self.pairs.len() {
            self.pairs[place].media.as_slice()
        } else {
            b"application/octet-stream"
        }
    }
}

/// What follows the last point of a name, where there is one.
fn extension_of(name: &[u8]) -> Option<&[u8]>
    ensures { option_map (λ e. e.now) result ≡ extension_of name.now }
{
    for place in (0..name.len()).rev() {
        if name[place] == b'.' {
            return Some(&name[place + 1..]);
        }
    }
    None
}

/// The place of the first pair of the extension.
fn find_pair(pairs: &[TypePair], extension: &[u8]) -> Option<usize>
    ensures { result ≡ position (is_pair_of extension.now) pairs.now }
{
    pairs.iter().position(|pair| is_same_ignoring_case(extension, pair.extension.as_slice()))
}

/// The same, or how many pairs there are where none is of the extension.
fn place_of_pair(pairs: &[TypePair], extension: &[u8]) -> usize
    ensures { result ≡ position_or_len (is_pair_of extension.now) pairs.now }
{
    find_pair(pairs, extension).unwrap_or(pairs.len())
}

/// Puts the pairs at the end, a later one before an earlier one, with the character set behind their types.
fn add_added(
    alloc: Global,
    pairs: &mut Vec<TypePair>,
    added: &[TypePair],
    charset: &Option<Octets>,
) -> Result<(), NoMemory>
    ensures { OnOk result (pairs.new.items ≡ pairs.old.items
        ++ map (pair_sent charset.now) (reverse added.now)) }
{
    for place in (0..added.len()).rev() {
        let pair = &added[place];
        add_pair(
            alloc,
            pairs,
            pair.extension.as_slice(),
            pair.media.as_slice(),
            charset,
        )?;
    }
    Ok(())
}

/// The pairs of the types, in the order in which they count, as they are sent.
fn pairs_of(alloc: Global, types: &MediaTypes) -> Result<Vec<TypePair>, NoMemory>
    ensures { IfOk result (λ pairs. ArePairsOf types.now pairs.items) }
{
    let mut pairs = Vec::new(alloc);
    add_added(alloc, &mut pairs, types.added.as_slice(), &types.charset)?;
    add_table(alloc, &mut pairs, types.long, &types.charset)?;
    Ok(pairs)
}
