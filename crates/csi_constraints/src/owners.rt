//! The constraint that the volume of an attachment exists and has the capability of the attachment. The
//! capabilities of a volume are decoded once for all of its attachments.

ghost use Rattle.std.specs.Prelude.{◌≡◌, None, Some, IfOk, OnOk};
ghost use Rattle.csi_keeper.specs.Capability.{has_key};
ghost use Rattle.csi_sql.specs.Folding.{FailsForMemory};
ghost use Rattle.csi_constraints.specs.Coding.{keys_in};
ghost use Rattle.csi_constraints.specs.Joins.{is_owned};
ghost use Rattle.csi_constraints.specs.Known.{AreCached, are_last, last_keys};
ghost use Rattle.csi_constraints.specs.Named.{named_out};
ghost use Rattle.csi_constraints.specs.Values.{is_some_and};
ghost use Rattle.csi_constraints.specs.facts.Starts.{still_found};

use crate::coded::key_at;
use crate::coding::keys_in;
use crate::named::{RowName, name_at};
use csi_keeper::{CapKey, has_key};
use csi_sql::Fold;
use csi_sql::values::blob_at;
use csi_types::Items;
use sqlite::{Error, Row};
use std::alloc::Global;

/// The bytes in `caps` of a volume, and the capability keys decoded from these bytes.
#[derive(Drop)]
pub struct KnownCaps {
    /// The bytes of the column `caps` in the row of the volume.
    pub bytes: Vec<u8>,
    /// The decoded keys, or `None` if `bytes` are not the canonical bytes of capabilities.
    pub caps: Option<Items<CapKey>>,
}

impl KnownCaps {
    // Returns true if the caps contain this key or its wider key.
    fn have(&self, key: &CapKey) -> bool
        ensures { result ≡ is_some_and (λ caps. has_key caps (Some key.now)) self.now.caps }
    {
        match &self.caps {
            Some(caps) => has_key(caps.as_slice(), key),
            None => false,
        }
    }
}

/// Finds the first attachment whose volume does not exist or lacks the attachment's capability. An attachment
/// also breaks this constraint if one of the two cannot be decoded: its capability, or the capabilities of
/// its volume. The rows come from `scan_owners`.
///
/// The fold keeps the caps that were decoded last. So the caps of a volume are decoded once for consecutive
/// attachments of the volume.
#[derive(Drop)]
pub struct FirstUnowned {
    /// The allocator of the decoded capabilities and of the text in `found`.
    pub alloc: Global,
    /// The caps that were decoded last, or `None` if no caps have been decoded yet. Initially `None`.
    pub last: Option<KnownCaps>,
    /// The first row that breaks the constraint, or `None` if no row has broken it yet. Initially `None`.
    pub found: Option<RowName>,
}

// Returns true if `bytes` are the caps that were decoded last, so that they need not be decoded again.
fn are_last(last: &Option<KnownCaps>, bytes: &[u8]) -> bool
    ensures { result ≡ are_last last.now bytes.now }
{
    match last {
        Some(known) => known.bytes.as_slice() == bytes,
        None => false,
    }
}

fn read_caps(alloc: Global, last: &mut Option<KnownCaps>, bytes: &[u8]) -> Result<(), Error>
    ensures known { AreCached last.old → AreCached last.new }
    ensures read { AreCached last.old → OnOk result (last_keys last.new ≡ keys_in bytes.now) }
    ensures memory { FailsForMemory result }
{
    if are_last(last, bytes) {
        return Ok(());
    }
    let caps = keys_in(alloc, bytes)?;
    let bytes = Vec::from_slice(alloc, bytes)?;
    *last = Some(KnownCaps { bytes, caps });
    Ok(())
}

// Returns true if the caps that were decoded last contain this key or its wider key.
fn have_key(last: &Option<KnownCaps>, key: &CapKey) -> bool
    ensures { result ≡ is_some_and (λ caps. has_key caps (Some key.now)) (last_keys last.now) }
{
    match last {
        Some(known) => known.have(key),
        None => false,
    }
}

// Returns true if the volume of an attachment exists and has the attachment's capability.
fn is_owned(alloc: Global, last: &mut Option<KnownCaps>, row: &Row) -> Result<bool, Error>
    ensures known { AreCached last.old → AreCached last.new }
    ensures exact { AreCached last.old → IfOk result (λ owned. owned ≡ is_owned row.now) }
    ensures memory { FailsForMemory result }
{
    let Some(key) = key_at(alloc, row, 2)? else {
        return Ok(false);
    };
    let Some(bytes) = blob_at(row, 4) else {
        return Ok(false);
    };
    read_caps(alloc, last, bytes)?;
    Ok(have_key(last, &key))
}

impl Fold for FirstUnowned {
    ghost folds = { λ first rows now. AreCached first.last → AreCached now.last
        × (now.found ≡ named_out 0 1 is_owned first.found rows) };

    ghost takes_memory = { λ fold _. fold.found ≡ None };

    ghost starts = { λ first known. (known, still_found first.found) };

    fn add_row(&mut self, row: &Row) -> Result<(), Error> {
        if self.found.is_some() {
            return Ok(());
        }
        if !is_owned(self.alloc, &mut self.last, row)? {
            self.found = Some(name_at(self.alloc, row, 0, 1)?);
        }
        Ok(())
    }
}
