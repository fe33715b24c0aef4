//! Copies the contents of a keeper into memory.

ghost use Rattle.std.specs.Prelude.{◌≡◌, ◌≢◌, ◌↔◌, ◌<◌, ◌+◌, [], false, length, get_or, Err, IfErr, IfOk, IsTrue, OnOk, ⊤};
ghost use Rattle.std.specs.List.{AllByRecursion};
ghost use Rattle.csi_memory.specs.Holding.{Holds};
ghost use Rattle.csi_memory.specs.Restoring.{CanRestore, restored};
ghost use Rattle.csi_keeper.specs.Keeper.{IsQuiet, count_after};
ghost use Rattle.csi_keeper.specs.State.{State, attached};
ghost use Rattle.csi_keeper.specs.declared.change.StoreFault.TheVariants.{Down, NoMemory};
ghost use Rattle.csi_through.specs.Copying.{AllowsEach, AreNext, CopiesAll, CopiesTo, IsCopy, IsHeld, IsNumbered, IsReportedFor, IsWhole, IsWhy, attached_each, last_number};

use csi_keeper::{Attachment, Change, Keeper, PageWithNodes, StoreFault, Volume};
use csi_memory::MemKeeper;
use csi_types::{Items, MAX_NUMBER, MAX_POOL_BYTES, Text};
use std::alloc::Global;

// The greatest number of volumes that one read returns.
const PAGE: u32 = 1000;

// Adds the attachments of a volume to the copy, which has no attachments of the volume yet.
#[tactic(auto, using(crate::proofs::CopyLemmas::allows_more, crate::proofs::CopyLemmas::attached_more))]
fn attach_each(
    alloc: Global,
    memory: &mut MemKeeper,
    number: u64,
    attachments: Items<Attachment>,
) -> Result<(), StoreFault>
    ensures attached { OnOk result ((s : State) → Holds memory.old s → AllowsEach s number attachments
        → Holds memory.new (attached_each s number attachments)) }
    ensures fault { IfErr result (λ fault. fault ≡ NoMemory) }
{
    for attachment in attachments.into_vec() {
        memory.apply(alloc, &Change::Attach(number, attachment))?;
    }
    Ok(())
}

// Returns true if the copy can have this next number: it is at most 2^62. Only a store that returns other
// values than were written has a greater next number.
fn is_numbered(next: u64) -> bool
    ensures { IsTrue result ↔ IsNumbered next }
{
    next <= MAX_NUMBER
}

// Returns true if the copy can have this volume: its number is below 2^62, and its size is at most 2^62
// bytes. Only a store that returns other values than were written has a volume outside these bounds.
fn is_held(volume: &Volume) -> bool
    ensures { IsTrue result ↔ IsHeld volume.now }
{
    (volume.number < MAX_NUMBER) & (volume.bytes <= MAX_POOL_BYTES)
}

// Adds a volume with its attachments after the volumes of the copy. Fails with `Refused` for a volume that
// the copy cannot have, so that no volume is left out.
fn restore(
    alloc: Global,
    memory: &mut MemKeeper,
    volume: Volume,
    attachments: Items<Attachment>,
) -> Result<(), StoreFault>
    ensures given { OnOk result ((s : State) → Holds memory.old s → CanRestore s volume
        → AllowsEach (restored s volume) volume.number attachments
        → Holds memory.new (attached_each (restored s volume) volume.number attachments)) }
    ensures held { OnOk result (IsHeld volume) }
    ensures up { IfErr result (λ fault. fault ≢ Down) }
    ensures fault { IfErr result (λ fault. IsHeld volume → fault ≡ NoMemory) }
{
    if !is_held(&volume) {
        return Err(StoreFault::Refused);
    }
    let number = volume.number;
    memory.restore(alloc, volume)?;
    attach_each(alloc, memory, number, attachments)
}

// Returns true if a volume of a page is published to a node, or if the page has no list of nodes for the
// volume.
fn is_published(nodes: &[Items<Text>], index: usize) -> bool
    ensures { result ≡ false → (index < length nodes.now) × (get_or nodes.now index [] ≡ []) }
{
    match nodes.get(index) {
        Some(nodes) => !nodes.is_empty(),
        None => true,
    }
}

// Reads the attachments of a volume. The keeper is not called for a volume that is not published, since it
// has no attachments.
fn attachments_of<K: Keeper>(
    alloc: Global,
    keeper: &mut K,
    number: u64,
    is_published: bool,
) -> Result<Items<Attachment>, StoreFault>
    ensures keeper_unchanged { IsQuiet (K.model keeper.old) (K.model keeper.new) }
    ensures value { IfOk result (λ rows. (K.model keeper.new).doubt ≡ 0 → (s : State)
        → (K.model keeper.old).holds s
        → (is_published ≡ false → attached s number ≡ []) → rows ≡ attached s number) }
    ensures count { (K.model keeper.new).refusals ≡ count_after (K.model keeper.old).refusals result }
    ensures down { result ≡ Err Down → IsTrue (K.model keeper.old).is_down }
{
    if !is_published {
        return Ok(Items::new(alloc));
    }
    keeper.attachments(alloc, number)
}

// Adds the volumes of a page with their attachments to the copy. `after` is the number of the volume before
// the page, or 0 for the first page. Returns the number of the last volume on the page, or `after` if the
// page is empty.
fn restore_page<K: Keeper>(
    alloc: Global,
    keeper: &mut K,
    memory: &mut MemKeeper,
    after: u64,
    volumes: Items<Volume>,
    nodes: &[Items<Text>],
) -> Result<u64, StoreFault>
    ensures keeper_unchanged { IsQuiet (K.model keeper.old) (K.model keeper.new) }
    ensures copies { IfOk result (λ last. CopiesTo (K.model keeper.old)
        (K.model keeper.new) memory.old memory.new after volumes nodes.now last) }
    ensures last { IfOk result (λ last. last ≡ last_number after volumes) }
    ensures held { OnOk result (AllByRecursion IsHeld volumes) }
    ensures count { OnOk result ((K.model keeper.new).refusals ≡ (K.model keeper.old).refusals) }
    ensures why { IfErr result (λ fault. IsReportedFor (λ s. AreNext s after volumes) (K.model keeper.old)
        (K.model keeper.new) fault) }
{
    let mut last = after;
    let mut index = 0;
    for volume in volumes.into_vec() {
        let number = volume.number;
        let published = is_published(nodes, index);
        let attachments = attachments_of(alloc, keeper, number, published)?;
        restore(alloc, memory, volume, attachments)?;
        last = number;
        index += 1;
    }
    Ok(last)
}

// Adds all volumes with their attachments to the copy, page by page.
fn restore_all<K: Keeper>(
    alloc: Global,
    keeper: &mut K,
    memory: &mut MemKeeper,
) -> Result<(), StoreFault>
    ensures keeper_unchanged { IsQuiet (K.model keeper.old) (K.model keeper.new) }
    ensures copied { OnOk result (CopiesAll (K.model keeper.old) (K.model keeper.new) memory.old memory.new) }
    ensures why { IfErr result (λ fault. IsReportedFor (λ _. ⊤)
        (K.model keeper.old) (K.model keeper.new) fault) }
{
    let mut after = 0;
    for turn in 0..u64::MAX {
        let PageWithNodes { volumes, nodes } = keeper.page_with_nodes(alloc, after, PAGE)?;
        if volumes.is_empty() {
            return Ok(());
        }
        after = restore_page(alloc, keeper, memory, after, volumes, nodes.as_slice())?;
    }
    Err(StoreFault::Refused)
}

/// Copies the contents of a keeper into memory. Reads the volumes of the keeper in pages of 1,000, and the
/// attachments of each volume that is published.
///
/// If the State of the keeper meets the invariant, and the keeper's doubt is 0, the copy has the same State.
///
/// # Errors
///
/// Returns the fault of a read, or `NoMemory` if an allocation is refused. Returns `Refused` for a next
/// number above 2^62, a volume with a number of 2^62 or more, or a size above 2^62 bytes. Only a store that
/// returns other values than were written has such a number or size. So if the State meets the invariant,
/// each `Refused` comes from a read of the keeper.
pub(crate) fn copy_of<K: Keeper>(alloc: Global, keeper: &mut K) -> Result<MemKeeper, StoreFault>
    ensures keeper_unchanged { IsQuiet (K.model keeper.old) (K.model keeper.new) }
    ensures copy { IfOk result (λ memory. IsCopy (K.model keeper.old) (K.model keeper.new) memory) }
    ensures complete { OnOk result (IsWhole (K.model keeper.old) (K.model keeper.new)) }
    ensures why { IfErr result (λ fault. IsWhy (K.model keeper.old) (K.model keeper.new) fault) }
{
    let next = keeper.next_number()?;
    if !is_numbered(next) {
        return Err(StoreFault::Refused);
    }
    let mut memory = MemKeeper::new(alloc, 1)?;
    restore_all(alloc, keeper, &mut memory)?;
    memory.skip_to(next);
    Ok(memory)
}
