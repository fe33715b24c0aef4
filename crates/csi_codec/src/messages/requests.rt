//! Decodes and encodes the requests that have several fields.

ghost use Rattle.csi_codec.specs.messages.VolumeRequests.{create_in, create_schema, canon_create, FitsCreate, delete_in, delete_schema, canon_delete, FitsDelete, modify_in, modify_schema, canon_modify, FitsModify};
ghost use Rattle.csi_codec.specs.messages.PublishRequests.{publish_in, publish_schema, canon_publish, FitsPublish, unpublish_in, unpublish_schema, canon_unpublish, FitsUnpublish};
ghost use Rattle.csi_codec.specs.messages.QueryRequests.{validate_in, validate_schema, canon_validate, FitsValidate, list_in, list_schema, canon_list, FitsList, capacity_in, capacity_schema, canon_capacity, FitsCapacity};

use crate::messages::Csi;
use crate::messages::values::{NoFields, low_half};
use csi_types::{
    Capability, CapacityRange, CreateVolume, DeleteVolume, GetCapacity, Items, ListVolumes, Map,
    Modify, Publish, Requirement, Text, Unpublish, Validate,
};
use pbmessage::{
    Message, Written, is_entry, is_message, is_text, merge_entry, merge_message, push_message,
    put_flag, put_map, put_messages, put_option, put_presence, put_signed, put_text, set_text,
};
use std::alloc::{AllocError, Global};

#[tactic(auto, using(pbmessage::specs::facts::Views::last_after, pbmessage::specs::facts::Views::present_after))]
impl Message<Csi> for CreateVolume {
    ghost schema = { create_schema };

    ghost of = { create_in };

    fn empty(alloc: Global) -> CreateVolume {
        CreateVolume {
            name: Text::new(alloc),
            range: None,
            capabilities: Items::new(alloc),
            parameters: Map::new(alloc),
            secrets: Map::new(alloc),
            source: false,
            topology: None,
            mutable: Map::new(alloc),
        }
    }

    fn is_good(number: u32, payload: &[u8]) -> bool {
        match number {
            1 => is_text(payload),
            2 => is_message::<Csi, CapacityRange>(payload),
            3 => is_message::<Csi, Capability>(payload),
            4 | 5 | 8 => is_entry(payload),
            6 => is_message::<Csi, NoFields>(payload),
            7 => is_message::<Csi, Requirement>(payload),
            _ => true,
        }
    }

    fn merge_number(&mut self, _number: u32, _value: u64) {}

    fn merge_payload(
        &mut self,
        alloc: Global,
        number: u32,
        payload: &[u8],
    ) -> Result<(), AllocError> {
        match number {
            1 => set_text(&mut self.name, payload)?,
            2 => merge_message(&mut self.range, alloc, payload)?,
            3 => push_message(&mut self.capabilities, alloc, payload)?,
            4 => merge_entry(&mut self.parameters, alloc, payload)?,
            5 => merge_entry(&mut self.secrets, alloc, payload)?,
            6 => self.source = true,
            7 => merge_message(&mut self.topology, alloc, payload)?,
            8 => merge_entry(&mut self.mutable, alloc, payload)?,
            _ => {}
        }
        Ok(())
    }
}

impl Written<Csi> for CreateVolume {
    ghost canon = { canon_create };

    ghost fits = { FitsCreate };

    fn write(&self, out: &mut Vec<u8>) -> Result<(), AllocError> {
        put_text(out, 1, &self.name)?;
        put_option(out, 2, &self.range)?;
        put_messages(out, 3, &self.capabilities)?;
        put_map(out, 4, &self.parameters)?;
        put_map(out, 5, &self.secrets)?;
        put_presence(out, 6, self.source)?;
        put_option(out, 7, &self.topology)?;
        put_map(out, 8, &self.mutable)?;
        Ok(())
    }
}

#[tactic(auto, using(pbmessage::specs::facts::Views::last_after))]
impl Message<Csi> for DeleteVolume {
    ghost schema = { delete_schema };

    ghost of = { delete_in };

    fn empty(alloc: Global) -> DeleteVolume {
        DeleteVolume {
            volume_id: Text::new(alloc),
            secrets: Map::new(alloc),
        }
    }

    fn is_good(number: u32, payload: &[u8]) -> bool {
        match number {
            1 => is_text(payload),
            2 => is_entry(payload),
            _ => true,
        }
    }

    fn merge_number(&mut self, _number: u32, _value: u64) {}

    fn merge_payload(
        &mut self,
        alloc: Global,
        number: u32,
        payload: &[u8],
    ) -> Result<(), AllocError> {
        match number {
            1 => set_text(&mut self.volume_id, payload)?,
            2 => merge_entry(&mut self.secrets, alloc, payload)?,
            _ => {}
        }
        Ok(())
    }
}

impl Written<Csi> for DeleteVolume {
    ghost canon = { canon_delete };

    ghost fits = { FitsDelete };

    fn write(&self, out: &mut Vec<u8>) -> Result<(), AllocError> {
        put_text(out, 1, &self.volume_id)?;
        put_map(out, 2, &self.secrets)?;
        Ok(())
    }
}

#[tactic(auto, using(pbmessage::specs::facts::Views::last_after))]
impl Message<Csi> for Modify {
    ghost schema = { modify_schema };

    ghost of = { modify_in };

    fn empty(alloc: Global) -> Modify {
        Modify {
            volume_id: Text::new(alloc),
            secrets: Map::new(alloc),
            mutable: Map::new(alloc),
        }
    }

    fn is_good(number: u32, payload: &[u8]) -> bool {
        match number {
            1 => is_text(payload),
            2 | 3 => is_entry(payload),
            _ => true,
        }
    }

    fn merge_number(&mut self, _number: u32, _value: u64) {}

    fn merge_payload(
        &mut self,
        alloc: Global,
        number: u32,
        payload: &[u8],
    ) -> Result<(), AllocError> {
        match number {
            1 => set_text(&mut self.volume_id, payload)?,
            2 => merge_entry(&mut self.secrets, alloc, payload)?,
            3 => merge_entry(&mut self.mutable, alloc, payload)?,
            _ => {}
        }
        Ok(())
    }
}

impl Written<Csi> for Modify {
    ghost canon = { canon_modify };

    ghost fits = { FitsModify };

    fn write(&self, out: &mut Vec<u8>) -> Result<(), AllocError> {
        put_text(out, 1, &self.volume_id)?;
        put_map(out, 2, &self.secrets)?;
        put_map(out, 3, &self.mutable)?;
        Ok(())
    }
}

#[tactic(auto, using(pbmessage::specs::facts::Views::last_after))]
impl Message<Csi> for Publish {
    ghost schema = { publish_schema };

    ghost of = { publish_in };

    fn empty(alloc: Global) -> Publish {
        Publish {
            volume_id: Text::new(alloc),
            node_id: Text::new(alloc),
            capability: None,
            readonly: false,
            secrets: Map::new(alloc),
            context: Map::new(alloc),
        }
    }

    fn is_good(number: u32, payload: &[u8]) -> bool {
        match number {
            1 | 2 => is_text(payload),
            3 => is_message::<Csi, Capability>(payload),
            5 | 6 => is_entry(payload),
            _ => true,
        }
    }

    fn merge_number(&mut self, number: u32, value: u64) {
        if number == 4 {
            self.readonly = value != 0;
        }
    }

    fn merge_payload(
        &mut self,
        alloc: Global,
        number: u32,
        payload: &[u8],
    ) -> Result<(), AllocError> {
        match number {
            1 => set_text(&mut self.volume_id, payload)?,
            2 => set_text(&mut self.node_id, payload)?,
            3 => merge_message(&mut self.capability, alloc, payload)?,
            5 => merge_entry(&mut self.secrets, alloc, payload)?,
            6 => merge_entry(&mut self.context, alloc, payload)?,
            _ => {}
        }
        Ok(())
    }
}

impl Written<Csi> for Publish {
    ghost canon = { canon_publish };

    ghost fits = { FitsPublish };

    fn write(&self, out: &mut Vec<u8>) -> Result<(), AllocError> {
        put_text(out, 1, &self.volume_id)?;
        put_text(out, 2, &self.node_id)?;
        put_option(out, 3, &self.capability)?;
        put_flag(out, 4, self.readonly)?;
        put_map(out, 5, &self.secrets)?;
        put_map(out, 6, &self.context)?;
        Ok(())
    }
}

#[tactic(auto, using(pbmessage::specs::facts::Views::last_after))]
impl Message<Csi> for Unpublish {
    ghost schema = { unpublish_schema };

    ghost of = { unpublish_in };

    fn empty(alloc: Global) -> Unpublish {
        Unpublish {
            volume_id: Text::new(alloc),
            node_id: Text::new(alloc),
            secrets: Map::new(alloc),
        }
    }

    fn is_good(number: u32, payload: &[u8]) -> bool {
        match number {
            1 | 2 => is_text(payload),
            3 => is_entry(payload),
            _ => true,
        }
    }

    fn merge_number(&mut self, _number: u32, _value: u64) {}

    fn merge_payload(
        &mut self,
        alloc: Global,
        number: u32,
        payload: &[u8],
    ) -> Result<(), AllocError> {
        match number {
            1 => set_text(&mut self.volume_id, payload)?,
            2 => set_text(&mut self.node_id, payload)?,
            3 => merge_entry(&mut self.secrets, alloc, payload)?,
            _ => {}
        }
        Ok(())
    }
}

impl Written<Csi> for Unpublish {
    ghost canon = { canon_unpublish };

    ghost fits = { FitsUnpublish };

    fn write(&self, out: &mut Vec<u8>) -> Result<(), AllocError> {
        put_text(out, 1, &self.volume_id)?;
        put_text(out, 2, &self.node_id)?;
        put_map(out, 3, &self.secrets)?;
        Ok(())
    }
}

#[tactic(auto, using(pbmessage::specs::facts::Views::last_after))]
impl Message<Csi> for Validate {
    ghost schema = { validate_schema };

    ghost of = { validate_in };

    fn empty(alloc: Global) -> Validate {
        Validate {
            volume_id: Text::new(alloc),
            context: Map::new(alloc),
            capabilities: Items::new(alloc),
            parameters: Map::new(alloc),
            secrets: Map::new(alloc),
        }
    }

    fn is_good(number: u32, payload: &[u8]) -> bool {
        match number {
            1 => is_text(payload),
            2 | 4 | 5 => is_entry(payload),
            3 => is_message::<Csi, Capability>(payload),
            _ => true,
        }
    }

    fn merge_number(&mut self, _number: u32, _value: u64) {}

    fn merge_payload(
        &mut self,
        alloc: Global,
        number: u32,
        payload: &[u8],
    ) -> Result<(), AllocError> {
        match number {
            1 => set_text(&mut self.volume_id, payload)?,
            2 => merge_entry(&mut self.context, alloc, payload)?,
            3 => push_message(&mut self.capabilities, alloc, payload)?,
            4 => merge_entry(&mut self.parameters, alloc, payload)?,
            5 => merge_entry(&mut self.secrets, alloc, payload)?,
            _ => {}
        }
        Ok(())
    }
}

impl Written<Csi> for Validate {
    ghost canon = { canon_validate };

    ghost fits = { FitsValidate };

    fn write(&self, out: &mut Vec<u8>) -> Result<(), AllocError> {
        put_text(out, 1, &self.volume_id)?;
        put_map(out, 2, &self.context)?;
        put_messages(out, 3, &self.capabilities)?;
        put_map(out, 4, &self.parameters)?;
        put_map(out, 5, &self.secrets)?;
        Ok(())
    }
}

#[tactic(auto, using(pbmessage::specs::facts::Views::last_after, pbmessage::specs::facts::Views::signed_kept_32))]
impl Message<Csi> for ListVolumes {
    ghost schema = { list_schema };

    ghost of = { list_in };

    fn empty(alloc: Global) -> ListVolumes {
        ListVolumes {
            max_entries: 0,
            token: Text::new(alloc),
        }
    }

    fn is_good(number: u32, payload: &[u8]) -> bool {
        match number {
            2 => is_text(payload),
            _ => true,
        }
    }

    fn merge_number(&mut self, number: u32, value: u64) {
        if number == 1 {
            self.max_entries = low_half(value);
        }
    }

    fn merge_payload(
        &mut self,
        _alloc: Global,
        number: u32,
        payload: &[u8],
    ) -> Result<(), AllocError> {
        match number {
            2 => set_text(&mut self.token, payload)?,
            _ => {}
        }
        Ok(())
    }
}

impl Written<Csi> for ListVolumes {
    ghost canon = { canon_list };

    ghost fits = { FitsList };

    fn write(&self, out: &mut Vec<u8>) -> Result<(), AllocError> {
        put_signed(out, 1, i64::from(self.max_entries))?;
        put_text(out, 2, &self.token)?;
        Ok(())
    }
}

impl Message<Csi> for GetCapacity {
    ghost schema = { capacity_schema };

    ghost of = { capacity_in };

    fn empty(alloc: Global) -> GetCapacity {
        GetCapacity {
            capabilities: Items::new(alloc),
            parameters: Map::new(alloc),
            topology: None,
        }
    }

    fn is_good(number: u32, payload: &[u8]) -> bool {
        match number {
            1 => is_message::<Csi, Capability>(payload),
            2 => is_entry(payload),
            3 => is_message::<Csi, Map>(payload),
            _ => true,
        }
    }

    fn merge_number(&mut self, _number: u32, _value: u64) {}

    fn merge_payload(
        &mut self,
        alloc: Global,
        number: u32,
        payload: &[u8],
    ) -> Result<(), AllocError> {
        match number {
            1 => push_message(&mut self.capabilities, alloc, payload)?,
            2 => merge_entry(&mut self.parameters, alloc, payload)?,
            3 => merge_message(&mut self.topology, alloc, payload)?,
            _ => {}
        }
        Ok(())
    }
}

impl Written<Csi> for GetCapacity {
    ghost canon = { canon_capacity };

    ghost fits = { FitsCapacity };

    fn write(&self, out: &mut Vec<u8>) -> Result<(), AllocError> {
        put_messages(out, 1, &self.capabilities)?;
        put_map(out, 2, &self.parameters)?;
        put_option(out, 3, &self.topology)?;
        Ok(())
    }
}
