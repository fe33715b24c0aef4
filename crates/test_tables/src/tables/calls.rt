//! Calls the methods of a keeper, without the volume machine.

ghost use Rattle.std.specs.Prelude.{IfOk};
ghost use Rattle.csi_keeper.specs.State.{IsBounded};
ghost use Rattle.csi_keeper.specs.declared.change.Change.TheVariants.{AddVolume};

use super::words::{attachments_in_words, nodes_in_words, numbers_in_words, volumes_in_words};
use crate::numbers::small_at;
use csi_keeper::{Attachment, CapKey, Change, Keeper, Kind, StoreFault, Volume};
use csi_types::{Items, MAX_MAP_BYTES, Map, Text, map_bytes};
use std::alloc::{AllocError, Global};
use test_kit::{RowFault, number_at, word_at, words_of};

/// Calls the method of the keeper that a test row names, and returns the answer as a text.
///
/// # Errors
///
/// If the row names no method or lacks a word, the keeper refuses the call, or memory is refused.
pub(crate) fn call<K: Keeper>(
    alloc: Global,
    keeper: &mut K,
    row: &str,
) -> Result<String, RowFault> {
    let words = words_of(alloc, row)?;
    match word_at(&words, 0)? {
        "add" | "remove" | "attach" | "detach" | "set" => apply(alloc, keeper, &words),
        "refusals" => numbers_in_words(alloc, &[keeper.refusals()]),
        "next" => numbers_in_words(alloc, &[keeper.next_number()?]),
        "number" | "name" | "page" => volumes(alloc, keeper, &words),
        "at" | "sizes" | "used" | "count" => numbers(alloc, keeper, &words),
        _ => places(alloc, keeper, &words),
    }
}

fn apply<K: Keeper>(alloc: Global, keeper: &mut K, words: &[&str]) -> Result<String, RowFault> {
    match change(alloc, words) {
        Ok(change) => done(alloc, keeper.apply(alloc, &change)),
        Err(fault) => Err(fault),
    }
}

fn done(alloc: Global, applied: Result<(), StoreFault>) -> Result<String, RowFault> {
    applied?;
    Ok(String::from_str(alloc, "done")?)
}

fn volumes<K: Keeper>(alloc: Global, keeper: &mut K, words: &[&str]) -> Result<String, RowFault> {
    match word_at(words, 0)? {
        "number" => found(alloc, keeper.by_number(alloc, number_at(words, 1)?)),
        "name" => found(alloc, keeper.by_name(alloc, word_at(words, 1)?)),
        _ => {
            let page = keeper.page(alloc, number_at(words, 1)?, number_at(words, 2)?);
            volumes_in_words(alloc, page?.as_slice())
        }
    }
}

fn found(alloc: Global, found: Result<Option<Volume>, StoreFault>) -> Result<String, RowFault> {
    volumes_in_words(alloc, found?.as_slice())
}

fn numbers<K: Keeper>(alloc: Global, keeper: &mut K, words: &[&str]) -> Result<String, RowFault> {
    let name = word_at(words, 1)?;
    let found = match word_at(words, 0)? {
        "at" => keeper.attached_at(alloc, name),
        "sizes" => keeper.sizes_in(alloc, name),
        "count" => {
            let count = keeper.count_at(alloc, &Text::from_str(alloc, name)?)?;
            return numbers_in_words(alloc, &[count]);
        }
        _ => {
            let used = keeper.used_in(&Text::from_str(alloc, name)?)?;
            return numbers_in_words(alloc, &[used.volumes, used.bytes]);
        }
    };
    numbers_in_words(alloc, found?.as_slice())
}

fn places<K: Keeper>(alloc: Global, keeper: &mut K, words: &[&str]) -> Result<String, RowFault> {
    match word_at(words, 0)? {
        "nodes" => {
            let page = keeper.page_with_nodes(alloc, number_at(words, 1)?, number_at(words, 2)?);
            nodes_in_words(alloc, page?.nodes.as_slice())
        }
        "attachments" => {
            let attachments = keeper.attachments(alloc, number_at(words, 1)?);
            attachments_in_words(alloc, attachments?.as_slice())
        }
        _ => Err(RowFault::NotRow),
    }
}

fn change(alloc: Global, words: &[&str]) -> Result<Change, RowFault>
    ensures { IfOk result IsBounded }
{
    match word_at(words, 0)? {
        "add" => Ok(Change::AddVolume(volume(alloc, words)?)),
        "remove" => Ok(Change::RemoveVolume(number_at(words, 1)?)),
        "attach" => {
            let number = number_at(words, 1)?;
            Ok(Change::Attach(number, attachment(alloc, word_at(words, 2)?)?))
        }
        "set" => set(alloc, words),
        _ => {
            let number = number_at(words, 1)?;
            match word_at(words, 2)? {
                "*" => Ok(Change::DetachAll(number)),
                node => Ok(Change::Detach(number, Text::from_str(alloc, node)?)),
            }
        }
    }
}

// Makes a change that sets the mutable parameters of a volume to one key with its value, or to no parameters.
fn set(alloc: Global, words: &[&str]) -> Result<Change, RowFault>
    ensures { IfOk result IsBounded }
{
    let number = number_at(words, 1)?;
    let mutable = mutable(alloc, words)?;
    if map_bytes(&mutable) > MAX_MAP_BYTES {
        return Err(RowFault::NotRow);
    }
    Ok(Change::SetMutable(number, mutable))
}

fn mutable(alloc: Global, words: &[&str]) -> Result<Map, RowFault> {
    let mut mutable = Map::new(alloc);
    if words.len() > 3 {
        let key = Text::from_str(alloc, word_at(words, 2)?)?;
        mutable.insert(key, Text::from_str(alloc, word_at(words, 3)?)?)?;
    }
    Ok(mutable)
}

fn volume(alloc: Global, words: &[&str]) -> Result<Volume, RowFault>
    ensures { IfOk result (λ volume. IsBounded (AddVolume volume)) }
{
    let number = small_at(words, 1)?;
    let bytes = small_at(words, 3)?;
    let pool = word_at(words, 4)?;
    let name = Text::from_str(alloc, word_at(words, 2)?)?;
    Ok(Volume {
        number,
        name,
        bytes,
        pool: Text::from_str(alloc, pool)?,
        caps: Items::new(alloc),
        params: Map::new(alloc),
        mutable: Map::new(alloc),
    })
}

// Makes an attachment to a node, as a block device with access mode 1 (`SINGLE_NODE_WRITER`).
fn attachment(alloc: Global, node: &str) -> Result<Attachment, AllocError> {
    Ok(Attachment {
        node: Text::from_str(alloc, node)?,
        cap: CapKey {
            kind: Kind::Block,
            mode: 1,
        },
        readonly: false,
    })
}
