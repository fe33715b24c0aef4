//! Inserts an entry into a map.
//!
//! A map is a list and a tree. The keys in the list rise, and each key in the tree is greater than all keys
//! in the list. So a map needs no tree if its entries are inserted in the order of their keys, as they mostly
//! are. An entry moves at most once, from the list to the tree.

ghost use Rattle.std.specs.Prelude.{◌≡◌, ◌<◌, ◌+◌, ◌++◌, ◌∷◌, [], IsFalse, IsTrue, OnErr, OnOk, length};
ghost use Rattle.std.specs.FinMap.{put};
ghost use Rattle.std.specs.Ordering.{nat_cmp};
ghost use Rattle.std.specs.Cmp.Lexicographic.{slice_cmp};
ghost use Rattle.csi_types.specs.Maps.{AreBelow, IsRising};

use crate::text::Text;
use std::alloc::AllocError;
use std::collections::BTreeMap;

/// Sets the value under `key`. An earlier value under this key is replaced. If memory is refused, the entries
/// are unchanged.
pub(super) fn enter(
    listed: &mut Vec<(Text, Text)>,
    tree: &mut BTreeMap<Text, Text>,
    key: Text,
    value: Text,
) -> Result<(), AllocError>
    requires { IsRising (listed.old.items ++ tree.old.entries) }
    ensures ok { OnOk result (listed.new.items ++ tree.new.entries
        ≡ put (slice_cmp nat_cmp) key value (listed.old.items ++ tree.old.entries)) }
    ensures err { OnErr result (listed.new.items ++ tree.new.entries ≡ listed.old.items ++ tree.old.entries) }
{
    if tree.is_empty() && is_beyond(&key, listed) {
        append(listed, key, value)?;
    } else {
        move_from(&key, listed, tree)?;
        tree.insert(key, value)?;
    }
    Ok(())
}

// Returns true if a key is above all keys of a list.
fn is_beyond(key: &Text, listed: &[(Text, Text)]) -> bool
    requires { IsRising listed.now }
    ensures beyond { IsTrue result → AreBelow key.now listed.now }
    ensures not_empty { IsFalse result → 0 < length listed.now }
{
    match listed.split_last() {
        Some((last, _)) => last.0 < *key,
        None => true,
    }
}

// Appends an entry to the list. An empty list reserves room for one entry only, since most maps have one
// entry.
fn append(listed: &mut Vec<(Text, Text)>, key: Text, value: Text) -> Result<(), AllocError>
    ensures ok { OnOk result (listed.new.items ≡ listed.old.items ++ (key, value) ∷ []) }
    ensures err { OnErr result (listed.new.items ≡ listed.old.items) }
{
    if listed.is_empty() {
        listed.reserve_exact(1)?;
    }
    listed.push((key, value))?;
    Ok(())
}

// Moves the entries whose keys are not below `key` from the list to the tree. If memory is refused, some of
// these entries may have moved.
fn move_from(
    key: &Text,
    listed: &mut Vec<(Text, Text)>,
    tree: &mut BTreeMap<Text, Text>,
) -> Result<(), AllocError>
    requires { IsRising (listed.old.items ++ tree.old.entries) }
    ensures unchanged { listed.new.items ++ tree.new.entries ≡ listed.old.items ++ tree.old.entries }
    ensures ok { OnOk result (AreBelow key.now listed.new.items) }
{
    while !is_beyond(key, listed) {
        move_last(listed, tree)?;
    }
    Ok(())
}

// Moves the last entry of the list to the tree.
fn move_last(
    listed: &mut Vec<(Text, Text)>,
    tree: &mut BTreeMap<Text, Text>,
) -> Result<(), AllocError>
    requires rising { IsRising (listed.old.items ++ tree.old.entries) }
    requires not_empty { 0 < length listed.old.items }
    ensures unchanged { listed.new.items ++ tree.new.entries ≡ listed.old.items ++ tree.old.entries }
    ensures moved { OnOk result (length listed.new.items + 1 ≡ length listed.old.items) }
{
    let Some((key, value)) = listed.pop() else {
        unreachable!()
    };
    match tree.insert(key, value) {
        Ok(_) => Ok(()),
        Err(refused) => {
            // The list still has the room of the entry that was popped, so `push` cannot fail.
            let Ok(()) = listed.push(refused.value) else {
                unreachable!()
            };
            Err(AllocError)
        }
    }
}
