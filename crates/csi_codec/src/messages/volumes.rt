//! Decodes and encodes the messages inside requests and responses: capabilities, capacity ranges, topologies
//! and volumes.

ghost use Rattle.std.specs.Prelude.{◌≡◌, ◌++◌, ◌∷◌, [], ℕ, List, OnOk, IfOk};
ghost use Rattle.std.specs.Int.{cast_signed};
ghost use Rattle.csi_types.specs.declared.capability.Access.TheVariants.{Mount as AnyMount};
ghost use Rattle.pbmessage.specs.Schema.{AnyPayload, GoodField, Good};
ghost use Rattle.pbwire.specs.Wire.{WireField};
ghost use Rattle.pbmessage.specs.Views.{one_of, value_of};
ghost use Rattle.pbmessage.specs.Canon.{bytes_of, FitsTexts};
ghost use Rattle.pbmessage.specs.Fields.{AreGood, fields_of};
ghost use Rattle.pbmessage.specs.Kept.{Keeps};
ghost use Rattle.csi_codec.specs.messages.Capability.{mount_in, mount_schema, canon_mount, FitsMount, access, canon_access, FitsAccess, capability_in, capability_schema, canon_capability, FitsCapability};
ghost use Rattle.csi_codec.specs.messages.Capacity.{range_in, canon_range, FitsRange};
ghost use Rattle.csi_codec.specs.messages.Topology.{requirement_in, requirement_schema, canon_requirement, FitsRequirement};
ghost use Rattle.csi_codec.specs.messages.Volume.{volume_in, volume_schema, canon_volume, FitsVolume, nodes_in, nodes_schema, canon_nodes, entry_in, entry_schema, canon_entry, FitsEntry, confirmed_in, confirmed_schema, canon_confirmed, FitsConfirmed};

use crate::messages::Csi;
use crate::messages::values::{EnumValue, NoFields};
use csi_types::{
    Access, Boxed, Capability, CapacityRange, Confirmed, Entry, Items, Map, Mount, Requirement,
    Text, VolumeInfo,
};
use pbmessage::{
    Message, Written, is_entry, is_message, is_text, merge, merge_entry, merge_message,
    push_message, put_map, put_message, put_messages, put_option, put_signed, put_text, put_texts,
    read, set_text, text,
};
use pbwire::put_bytes;
use std::alloc::{AllocError, Global};
use std::mem::replace;

#[tactic(auto, using(pbmessage::specs::facts::Views::last_after))]
impl Message<Csi> for Mount {
    ghost schema = { mount_schema };

    ghost of = { mount_in };

    fn empty(alloc: Global) -> Mount {
        Mount {
            fs_type: Text::new(alloc),
            flags: Items::new(alloc),
            group: Text::new(alloc),
        }
    }

    fn is_good(number: u32, payload: &[u8]) -> bool {
        match number {
            1..=3 => is_text(payload),
            _ => true,
        }
    }

    fn merge_number(&mut self, _number: u32, _value: u64) {}

    fn merge_payload(
        &mut self,
        alloc: Global,
        number: u32,
        payload: &[u8],
    ) -> Result<(), AllocError> {
        match number {
            1 => set_text(&mut self.fs_type, payload)?,
            2 => self.flags.push(text(alloc, payload)?)?,
            3 => set_text(&mut self.group, payload)?,
            _ => {}
        }
        Ok(())
    }
}

// Returns the mount, merged with a further occurrence of its message.
fn merged(alloc: Global, mut mount: Mount, payload: &[u8]) -> Result<Mount, AllocError>
    requires { AreGood (GoodField (Good mount_schema)) payload.now }
    ensures { IfOk result (λ new. (fs : List WireField) → mount ≡ value_of mount_in fs
        → new ≡ value_of mount_in (fs ++ fields_of payload.now)) }
{
    merge(&mut mount, alloc, payload)?;
    Ok(mount)
}

fn set_mount(slot: &mut Access, alloc: Global, mount: Mount) -> Result<(), AllocError>
    ensures { OnOk result (slot.new ≡ AnyMount mount) }
{
    *slot = Access::Mount(Boxed::new(alloc, mount)?);
    Ok(())
}

/// Merges one occurrence of the field `mount` into the value of the oneof. If the value is a mount, the
/// occurrence is merged into this mount. Otherwise a new mount is made of the occurrence. If memory is
/// refused, no member of the oneof is set.
fn merge_mount(slot: &mut Access, alloc: Global, payload: &[u8]) -> Result<(), AllocError>
    requires { AreGood (GoodField (Good mount_schema)) payload.now }
    ensures { OnOk result ((ms : List (ℕ × List ℕ)) → slot.old ≡ access (one_of ms)
        → slot.new ≡ access (one_of (ms ++ (2, payload.now) ∷ []))) }
{
    match replace(slot, Access::Missing) {
        Access::Mount(before) => {
            let mount = merged(alloc, before.into_value(), payload)?;
            set_mount(slot, alloc, mount)
        }
        Access::Missing | Access::Block => {
            let mount = read(alloc, payload)?;
            set_mount(slot, alloc, mount)
        }
    }
}

#[tactic(auto, using(pbmessage::specs::facts::Views::one_of_push))]
impl Message<Csi> for Capability {
    ghost schema = { capability_schema };

    ghost of = { capability_in };

    fn empty(_alloc: Global) -> Capability {
        Capability {
            access: Access::Missing,
            mode: None,
        }
    }

    fn is_good(number: u32, payload: &[u8]) -> bool {
        match number {
            1 => is_message::<Csi, NoFields>(payload),
            2 => is_message::<Csi, Mount>(payload),
            3 => is_message::<Csi, EnumValue>(payload),
            _ => true,
        }
    }

    fn merge_number(&mut self, _number: u32, _value: u64) {}

    fn merge_payload(
        &mut self,
        alloc: Global,
        number: u32,
        payload: &[u8],
    ) -> Result<(), AllocError> {
        match number {
            1 => self.access = Access::Block,
            2 => merge_mount(&mut self.access, alloc, payload)?,
            3 => merge_message(&mut self.mode, alloc, payload)?,
            _ => {}
        }
        Ok(())
    }
}

impl Written<Csi> for Mount {
    ghost canon = { canon_mount };

    ghost fits = { FitsMount };

    fn write(&self, out: &mut Vec<u8>) -> Result<(), AllocError> {
        put_text(out, 1, &self.fs_type)?;
        put_texts(out, 2, &self.flags)?;
        put_text(out, 3, &self.group)?;
        Ok(())
    }
}

#[tactic(auto, unfolding(pbmessage::specs::Canon::row_fields))]
fn put_access(out: &mut Vec<u8>, access: &Access) -> Result<(), AllocError>
    ensures ok { OnOk result (out.new.items ≡ out.old.items ++ bytes_of (canon_access access.now)) }
    ensures fitting { OnOk result (FitsAccess access.now) }
    ensures kept { Keeps out.old.items out.new.items }
{
    match access {
        Access::Missing => Ok(()),
        Access::Block => put_bytes(out, 1, &[]),
        Access::Mount(mount) => put_message(out, 2, mount.get()),
    }
}

impl Written<Csi> for Capability {
    ghost canon = { canon_capability };

    ghost fits = { FitsCapability };

    fn write(&self, out: &mut Vec<u8>) -> Result<(), AllocError> {
        put_access(out, &self.access)?;
        put_option(out, 3, &self.mode)?;
        Ok(())
    }
}

#[tactic(auto, using(pbmessage::specs::facts::Views::last_after, pbmessage::specs::facts::Views::signed_kept))]
impl Message<Csi> for CapacityRange {
    ghost schema = { AnyPayload };

    ghost of = { range_in };

    fn empty(_alloc: Global) -> CapacityRange {
        CapacityRange {
            required: 0,
            limit: 0,
        }
    }

    fn is_good(_number: u32, _payload: &[u8]) -> bool {
        true
    }

    fn merge_number(&mut self, number: u32, value: u64) {
        match number {
            1 => self.required = value.cast_signed(),
            2 => self.limit = value.cast_signed(),
            _ => {}
        }
    }

    fn merge_payload(
        &mut self,
        _alloc: Global,
        _number: u32,
        _payload: &[u8],
    ) -> Result<(), AllocError> {
        Ok(())
    }
}

impl Written<Csi> for CapacityRange {
    ghost canon = { canon_range };

    ghost fits = { FitsRange };

    fn write(&self, out: &mut Vec<u8>) -> Result<(), AllocError> {
        put_signed(out, 1, self.required)?;
        put_signed(out, 2, self.limit)?;
        Ok(())
    }
}

impl Message<Csi> for Requirement {
    ghost schema = { requirement_schema };

    ghost of = { requirement_in };

    fn empty(alloc: Global) -> Requirement {
        Requirement {
            requisite: Items::new(alloc),
            preferred: Items::new(alloc),
        }
    }

    fn is_good(number: u32, payload: &[u8]) -> bool {
        match number {
            1 | 2 => is_message::<Csi, Map>(payload),
            _ => true,
        }
    }

    fn merge_number(&mut self, _number: u32, _value: u64) {}

    fn merge_payload(
        &mut self,
        alloc: Global,
        number: u32,
        payload: &[u8],
    ) -> Result<(), AllocError> {
        match number {
            1 => push_message(&mut self.requisite, alloc, payload)?,
            2 => push_message(&mut self.preferred, alloc, payload)?,
            _ => {}
        }
        Ok(())
    }
}

impl Written<Csi> for Requirement {
    ghost canon = { canon_requirement };

    ghost fits = { FitsRequirement };

    fn write(&self, out: &mut Vec<u8>) -> Result<(), AllocError> {
        put_messages(out, 1, &self.requisite)?;
        put_messages(out, 2, &self.preferred)?;
        Ok(())
    }
}

#[tactic(auto, using(pbmessage::specs::facts::Views::last_after, pbmessage::specs::facts::Views::signed_kept))]
impl Message<Csi> for VolumeInfo {
    ghost schema = { volume_schema };

    ghost of = { volume_in };

    fn empty(alloc: Global) -> VolumeInfo {
        VolumeInfo {
            bytes: 0,
            id: Text::new(alloc),
            context: Map::new(alloc),
            topology: Items::new(alloc),
        }
    }

    fn is_good(number: u32, payload: &[u8]) -> bool {
        match number {
            2 => is_text(payload),
            3 => is_entry(payload),
            5 => is_message::<Csi, Map>(payload),
            _ => true,
        }
    }

    fn merge_number(&mut self, number: u32, value: u64) {
        if number == 1 {
            self.bytes = value.cast_signed();
        }
    }

    fn merge_payload(
        &mut self,
        alloc: Global,
        number: u32,
        payload: &[u8],
    ) -> Result<(), AllocError> {
        match number {
            2 => set_text(&mut self.id, payload)?,
            3 => merge_entry(&mut self.context, alloc, payload)?,
            5 => push_message(&mut self.topology, alloc, payload)?,
            _ => {}
        }
        Ok(())
    }
}

impl Written<Csi> for VolumeInfo {
    ghost canon = { canon_volume };

    ghost fits = { FitsVolume };

    fn write(&self, out: &mut Vec<u8>) -> Result<(), AllocError> {
        put_signed(out, 1, self.bytes)?;
        put_text(out, 2, &self.id)?;
        put_map(out, 3, &self.context)?;
        put_messages(out, 5, &self.topology)?;
        Ok(())
    }
}

/// `ListVolumesResponse.VolumeStatus`: `published_node_ids`, field 1, the ids of nodes.
pub type VolumeStatus = Items<Text>;

impl Message<Csi> for VolumeStatus {
    ghost schema = { nodes_schema };

    ghost of = { nodes_in };

    fn empty(alloc: Global) -> VolumeStatus {
        Items::new(alloc)
    }

    fn is_good(number: u32, payload: &[u8]) -> bool {
        match number {
            1 => is_text(payload),
            _ => true,
        }
    }

    fn merge_number(&mut self, _number: u32, _value: u64) {}

    fn merge_payload(
        &mut self,
        alloc: Global,
        number: u32,
        payload: &[u8],
    ) -> Result<(), AllocError> {
        match number {
            1 => self.push(text(alloc, payload)?)?,
            _ => {}
        }
        Ok(())
    }
}

#[tactic(auto, using(pbmessage::specs::facts::Writing::wrote_two, pbmessage::specs::facts::Writing::keeps_on))]
impl Written<Csi> for VolumeStatus {
    ghost canon = { canon_nodes };

    ghost fits = { FitsTexts };

    fn write(&self, out: &mut Vec<u8>) -> Result<(), AllocError> {
        put_texts(out, 1, self)?;
        Ok(())
    }
}

impl Message<Csi> for Entry {
    ghost schema = { entry_schema };

    ghost of = { entry_in };

    fn empty(_alloc: Global) -> Entry {
        Entry {
            volume: None,
            nodes: None,
        }
    }

    fn is_good(number: u32, payload: &[u8]) -> bool {
        match number {
            1 => is_message::<Csi, VolumeInfo>(payload),
            2 => is_message::<Csi, VolumeStatus>(payload),
            _ => true,
        }
    }

    fn merge_number(&mut self, _number: u32, _value: u64) {}

    fn merge_payload(
        &mut self,
        alloc: Global,
        number: u32,
        payload: &[u8],
    ) -> Result<(), AllocError> {
        match number {
            1 => merge_message(&mut self.volume, alloc, payload)?,
            2 => merge_message(&mut self.nodes, alloc, payload)?,
            _ => {}
        }
        Ok(())
    }
}

impl Written<Csi> for Entry {
    ghost canon = { canon_entry };

    ghost fits = { FitsEntry };

    fn write(&self, out: &mut Vec<u8>) -> Result<(), AllocError> {
        put_option(out, 1, &self.volume)?;
        put_option(out, 2, &self.nodes)?;
        Ok(())
    }
}

impl Message<Csi> for Confirmed {
    ghost schema = { confirmed_schema };

    ghost of = { confirmed_in };

    fn empty(alloc: Global) -> Confirmed {
        Confirmed {
            context: Map::new(alloc),
            capabilities: Items::new(alloc),
            parameters: Map::new(alloc),
        }
    }

    fn is_good(number: u32, payload: &[u8]) -> bool {
        match number {
            1 | 3 => is_entry(payload),
            2 => is_message::<Csi, Capability>(payload),
            _ => true,
        }
    }

    fn merge_number(&mut self, _number: u32, _value: u64) {}

    fn merge_payload(
        &mut self,
        alloc: Global,
        number: u32,
        payload: &[u8],
    ) -> Result<(), AllocError> {
        match number {
            1 => merge_entry(&mut self.context, alloc, payload)?,
            2 => push_message(&mut self.capabilities, alloc, payload)?,
            3 => merge_entry(&mut self.parameters, alloc, payload)?,
            _ => {}
        }
        Ok(())
    }
}

impl Written<Csi> for Confirmed {
    ghost canon = { canon_confirmed };

    ghost fits = { FitsConfirmed };

    fn write(&self, out: &mut Vec<u8>) -> Result<(), AllocError> {
        put_map(out, 1, &self.context)?;
        put_messages(out, 2, &self.capabilities)?;
        put_map(out, 3, &self.parameters)?;
        Ok(())
    }
}
