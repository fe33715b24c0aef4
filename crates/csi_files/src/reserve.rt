//! Holds memory for the next opening of tables.
//!
//! An opening reads each table whole, but a call over a file needs only a few pages. So calls could add rows
//! until no opening of the tables has enough memory, and then no volume could be deleted any more.
//!
//! On systems that refuse memory, blocks are held for the next opening. But a control group of Linux ends a
//! process that uses too much memory, and does not count memory that is held and not used. So the observer is
//! also asked if there is room.

ghost use Rattle.std.specs.Prelude.{◌≡◌, ◌≤◌, ◌<◌, true, false, IfErr, IfOk, IsTrue, Ok, OnErr, OnOk, vec_capacity, vec_len};
ghost use Rattle.csi_keeper.specs.declared.change.StoreFault.TheVariants.{NoMemory};
ghost use Rattle.csi_keeper.specs.State.{up_to_u64};
ghost use Rattle.csi_tables.specs.Keeping.{is_down};
ghost use Rattle.csi_files.specs.Reserving.{AreBlocks, IsFull, blocks_for, cap_bytes, change_bytes, volume_bytes, wanted_with};

use crate::run::Observer;
use csi_keeper::{
    Attachment, CapKey, Change, Keeper, Kind, PageWithNodes, StoreFault, Usage, Volume,
};
use csi_tables::Tables;
use csi_types::{Items, Text, map_bytes};
use sqlite::Alter;
use std::alloc::{AllocError, Global};

// The memory that an opening takes for a row, in bytes, without the bytes of its texts and blobs. An opening
// reads each table whole.
const ROW_BYTES: usize = 256;

// The memory that an opening takes for a capability, in bytes, without the name of its file system.
const CAP_BYTES: usize = 4;

// The size of a block of held memory, in bytes.
const BLOCK_BYTES: usize = 1 << 20;

// The number of blocks that stay free for calls if memory becomes short: for the pages that calls read and
// write, their frames and their replies.
const ROOM_BLOCKS: usize = 4;

// Allocates a block of memory that is held and not used. The call is not inlined, since a compiler could
// otherwise see that the block is not used, and allocate no memory.
#[inline(never)]
fn held(alloc: Global, bytes: usize) -> Result<Vec<u8>, AllocError>
    ensures { IfOk result (λ block. bytes ≤ vec_capacity block) }
{
    Vec::with_capacity(alloc, bytes)
}

/// Allocates four blocks of 1 MiB, which shows that calls still have 4 MiB. The calls can use this memory
/// after the result is dropped. A block is as large as the longest message. One block of 4 MiB is not asked
/// for, since free memory is seldom in one piece.
///
/// # Errors
///
/// If memory is refused.
#[tactic(auto, using(crate::proofs::ReserveLemmas::no_blocks, crate::proofs::ReserveLemmas::one_more))]
pub(crate) fn room(alloc: Global) -> Result<Vec<Vec<u8>>, AllocError>
    ensures count { IfOk result (λ blocks. vec_len blocks ≡ 4) }
    ensures blocks { IfOk result (λ blocks. AreBlocks blocks.items) }
{
    let mut blocks = Vec::with_capacity(alloc, ROOM_BLOCKS)?;
    for _ in 0..ROOM_BLOCKS {
        blocks.push(held(alloc, BLOCK_BYTES)?)?;
    }
    Ok(blocks)
}

// Each time the memory for the next opening has grown by this number of bytes, the observer is asked again if
// there is room.
const STEP_BYTES: usize = 1 << 18;

// The memory that the next opening takes, and the blocks that are held for it.
struct Reserve {
    alloc: Global,
    blocks: Vec<Vec<u8>>,
    // The memory that the next opening takes, in bytes.
    wanted: usize,
    // True if blocks are held for the next opening. No blocks are held while a copy of the volumes is in
    // memory: the copy takes more memory than an opening, and is dropped before the next opening.
    is_held: bool,
}

impl Drop for Reserve {
    fn drop(self) {
        let Reserve {
            alloc: _,
            blocks: _blocks,
            wanted: _,
            is_held: _,
        } = self;
    }
}

impl Reserve {
    // Makes a reserve for an opening that takes `wanted` bytes. If `is_held` is true, holds as much of that
    // memory as the system gives.
    #[tactic(auto, using(crate::proofs::ReserveLemmas::no_blocks))]
    fn new(alloc: Global, wanted: usize, is_held: bool) -> Reserve
        ensures wanted { result.wanted ≡ wanted }
        ensures held { result.is_held ≡ is_held }
        ensures blocks { AreBlocks result.blocks.items }
        ensures most { vec_len result.blocks ≤ blocks_for wanted }
    {
        let mut reserve = Reserve {
            alloc,
            blocks: Vec::new(alloc),
            wanted,
            is_held,
        };
        if is_held {
            let _ = reserve.fill();
        }
        reserve
    }

    // Holds all of the memory that the next opening takes. Fails if memory for a block is refused, or if
    // fewer than 4 MiB stay free for calls.
    #[tactic(auto, using(crate::proofs::ReserveLemmas::one_more))]
    fn fill(&mut self) -> Result<(), AllocError>
        ensures full { OnOk result (IsFull self.new) }
        ensures wanted { self.new.wanted ≡ self.old.wanted }
        ensures held { self.new.is_held ≡ self.old.is_held }
        ensures blocks { AreBlocks self.old.blocks.items → AreBlocks self.new.blocks.items }
        ensures least { vec_len self.old.blocks ≤ vec_len self.new.blocks }
        ensures most { vec_len self.old.blocks ≤ blocks_for self.old.wanted
            → vec_len self.new.blocks ≤ blocks_for self.old.wanted }
    {
        for _ in self.blocks.len()..self.wanted.div_ceil(BLOCK_BYTES) {
            let _room = room(self.alloc)?;
            self.blocks.push(held(self.alloc, BLOCK_BYTES)?)?;
        }
        Ok(())
    }

    // Adds a number of bytes to the memory that the next opening takes. If memory is held, holds these bytes
    // too. If memory is refused, adds nothing.
    fn grow(&mut self, bytes: usize) -> Result<(), AllocError>
        ensures full { OnOk result (IsTrue self.old.is_held → IsFull self.new) }
        ensures wanted { OnOk result (self.new.wanted ≡ wanted_with self.old bytes) }
        ensures held { self.new.is_held ≡ self.old.is_held }
        ensures unheld { self.old.is_held ≡ false → result ≡ Ok tt }
        ensures unchanged { OnErr result (self.new.wanted ≡ self.old.wanted) }
        ensures blocks { AreBlocks self.old.blocks.items → AreBlocks self.new.blocks.items }
        ensures least { vec_len self.old.blocks ≤ vec_len self.new.blocks }
    {
        let before = self.wanted;
        self.wanted = before.saturating_add(bytes);
        if !self.is_held {
            return Ok(());
        }
        let grown = self.fill();
        if grown.is_err() {
            self.wanted = before;
        }
        grown
    }
}

fn cap_bytes(cap: &CapKey) -> usize
    ensures { result ≡ up_to_u64 (cap_bytes cap.now) }
{
    match &cap.kind {
        Kind::Block => CAP_BYTES,
        Kind::Mount(name) => name.len().saturating_add(CAP_BYTES),
    }
}

fn volume_bytes(volume: &Volume) -> usize
    ensures { result ≡ up_to_u64 (volume_bytes volume.now) }
{
    let mut bytes = ROW_BYTES
        .saturating_add(volume.name.len())
        .saturating_add(volume.pool.len());
    for cap in volume.caps.as_slice() {
        bytes = bytes.saturating_add(cap_bytes(cap));
    }
    bytes
        .saturating_add(map_bytes(&volume.params))
        .saturating_add(map_bytes(&volume.mutable))
}

// Returns the memory in bytes that the rows added by a change take in the next opening.
fn bytes_of(change: &Change) -> usize
    ensures { result ≡ up_to_u64 (change_bytes change.now) }
{
    match change {
        Change::AddVolume(volume) => volume_bytes(volume),
        Change::Attach(_, attachment) => {
            ROW_BYTES
                .saturating_add(attachment.node.len())
                .saturating_add(cap_bytes(&attachment.cap))
        }
        Change::SetMutable(_, mutable) => map_bytes(mutable),
        Change::RemoveVolume(_) | Change::Detach(..) | Change::DetachAll(_) => 0,
    }
}

/// Tables, and the memory that the next opening of their file takes. The memory is held, unless the tables
/// are copied into memory. A change that adds rows or sets parameters needs more of this memory, and reserves
/// it first. If the memory is refused, or the observer has no room, the change is not made and fails with
/// `NoMemory`, but the tables do not go down. A change that removes rows reserves no memory.
///
/// While tables are copied into memory, reading a page of volumes fails with `NoMemory` if the observer has
/// no room.
#[derive(Drop)]
pub(crate) struct Reserved<'a, S: Alter, O> {
    tables: Tables<S>,
    reserve: Reserve,
    observer: &'a O,
    // The observer is asked again when the next opening takes this number of bytes.
    asks_at: usize,
}

impl<'a, S: Alter, O: Observer> Reserved<'a, S, O> {
    /// Wraps tables whose reads go to the file. Their next opening takes `opening` bytes. Holds as much of
    /// this memory as the system gives.
    pub(crate) fn new(
        alloc: Global,
        tables: Tables<S>,
        opening: usize,
        observer: &'a O,
    ) -> Reserved<'a, S, O>
        ensures tables { result.tables ≡ tables }
        ensures held { result.reserve.is_held ≡ true }
        ensures opening { result.reserve.wanted ≡ opening }
    {
        Reserved {
            tables,
            reserve: Reserve::new(alloc, opening, true),
            observer,
            asks_at: 0,
        }
    }

    /// Wraps tables that will be copied into memory, and holds no memory. Their next opening takes `opening`
    /// bytes.
    pub(crate) fn for_copy(
        alloc: Global,
        tables: Tables<S>,
        opening: usize,
        observer: &'a O,
    ) -> Reserved<'a, S, O>
        ensures tables { result.tables ≡ tables }
        ensures unheld { result.reserve.is_held ≡ false }
        ensures opening { result.reserve.wanted ≡ opening }
    {
        Reserved {
            tables,
            reserve: Reserve::new(alloc, opening, false),
            observer,
            asks_at: 0,
        }
    }

    /// Returns true if the tables are down. If they are down, each further call fails with `Down`.
    pub(crate) fn is_down(&self) -> bool
        ensures { result ≡ is_down S.Store self.now.tables }
    {
        self.tables.is_down()
    }

    /// Returns the tables, and frees the held memory.
    pub(crate) fn into_tables(self) -> Tables<S>
        ensures { result ≡ self.entry.tables }
    {
        self.tables
    }

    // Returns true if the observer has no room for another page of the copy. Returns false if no copy is
    // made, or if the tables are down, since reading a page fails with `Down` then.
    fn lacks_room(&self) -> bool
        ensures { IsTrue result → is_down S.Store self.now.tables ≡ false }
    {
        !self.reserve.is_held
            && !self.tables.is_down()
            && !self.observer.has_room(self.reserve.wanted)
    }

    // Returns true if there is room for a next opening of `opening` bytes. The observer is asked at first,
    // then after the opening has grown by `STEP_BYTES`, and each time if its last answer was no.
    fn has_room(&mut self, opening: usize) -> bool
        ensures unchanged { (self.new.tables ≡ self.old.tables) × (self.new.reserve ≡ self.old.reserve) }
    {
        if opening < self.asks_at {
            return true;
        }
        let has_room = self.observer.has_room(opening);
        if has_room {
            self.asks_at = opening.saturating_add(STEP_BYTES);
        }
        has_room
    }

    // Holds memory for the rows that a change adds, unless the tables are down. A change that only removes
    // rows succeeds even if less memory is held than the next opening takes.
    fn reserve_for(&mut self, change: &Change) -> Result<(), StoreFault>
        ensures unchanged { self.new.tables ≡ self.old.tables }
        ensures kept { OnOk result (0 < change_bytes change.now → is_down S.Store self.old.tables ≡ false
            → (IsTrue self.old.reserve.is_held → IsFull self.new.reserve)
            × (self.new.reserve.wanted ≡ wanted_with self.old.reserve (change_bytes change.now))) }
        ensures refused { IfErr result (λ fault. (fault ≡ NoMemory)
            × (is_down S.Store self.old.tables ≡ false)) }
        ensures freeing { change_bytes change.now ≡ 0 → result ≡ Ok tt }
    {
        let bytes = bytes_of(change);
        if bytes == 0 || self.tables.is_down() {
            return Ok(());
        }
        let opening = self.reserve.wanted.saturating_add(bytes);
        if !self.has_room(opening) || self.reserve.grow(bytes).is_err() {
            return Err(StoreFault::NoMemory);
        }
        Ok(())
    }
}

impl<S: Alter, O: Observer> Keeper for Reserved<'_, S, O> {
    ghost use Rattle.csi_tables.specs.Keeping.{tables_model};

    ghost model = { λ reserved. tables_model S.Store reserved.tables };

    fn refusals(&self) -> u64 {
        self.tables.refusals()
    }

    fn next_number(&mut self) -> Result<u64, StoreFault> {
        self.tables.next_number()
    }

    fn by_name(&mut self, alloc: Global, name: &str) -> Result<Option<Volume>, StoreFault> {
        self.tables.by_name(alloc, name)
    }

    fn by_number(&mut self, alloc: Global, number: u64) -> Result<Option<Volume>, StoreFault> {
        self.tables.by_number(alloc, number)
    }

    fn has_volume(&mut self, number: u64) -> Result<bool, StoreFault> {
        self.tables.has_volume(number)
    }

    fn caps_of(&mut self, alloc: Global, number: u64) -> Result<Option<Items<CapKey>>, StoreFault> {
        self.tables.caps_of(alloc, number)
    }

    fn attachments(&mut self, alloc: Global, number: u64) -> Result<Items<Attachment>, StoreFault> {
        self.tables.attachments(alloc, number)
    }

    fn attached_at(&mut self, alloc: Global, node: &str) -> Result<Items<u64>, StoreFault> {
        self.tables.attached_at(alloc, node)
    }

    fn count_at(&mut self, alloc: Global, node: &Text) -> Result<u64, StoreFault> {
        self.tables.count_at(alloc, node)
    }

    fn sizes_in(&mut self, alloc: Global, pool: &str) -> Result<Items<u64>, StoreFault> {
        self.tables.sizes_in(alloc, pool)
    }

    fn used_in(&mut self, pool: &Text) -> Result<Usage, StoreFault> {
        self.tables.used_in(pool)
    }

    fn page(&mut self, alloc: Global, after: u64, count: u32) -> Result<Items<Volume>, StoreFault> {
        self.tables.page(alloc, after, count)
    }

    fn page_with_nodes(
        &mut self,
        alloc: Global,
        after: u64,
        count: u32,
    ) -> Result<PageWithNodes, StoreFault> {
        if self.lacks_room() {
            return Err(StoreFault::NoMemory);
        }
        self.tables.page_with_nodes(alloc, after, count)
    }

    fn apply(&mut self, alloc: Global, change: &Change) -> Result<(), StoreFault> {
        match self.reserve_for(change) {
            Ok(()) => self.tables.apply(alloc, change),
            Err(fault) => Err(fault),
        }
    }
}
