//! Decodes and encodes messages with one field or none.

ghost use Rattle.std.specs.Prelude.{◌≡◌, ◌%◌, ◌^◌};
ghost use Rattle.std.specs.Int.{cast_signed, w32};
ghost use Rattle.pbmessage.specs.Schema.{AnyPayload, map_entry_schema};
ghost use Rattle.pbmessage.specs.Views.{map_entry_in};
ghost use Rattle.csi_codec.specs.messages.Single.{nothing_in, bool_value_in, canon_bool_value, FitsBoolValue, int64_value_in, enum_value_in, canon_number, only_in, only_schema, canon_only, types_in, types_schema, canon_types, FitsTypes};
ghost use Rattle.pbmessage.specs.Canon.{FitsI64, FitsI32, FitsOption, FitsMap};
ghost use Rattle.csi_codec.specs.messages.Topology.{map_in, map_schema, canon_map};

use crate::messages::Csi;
use csi_types::{Items, Map, Text};
use pbmessage::{
    Message, Written, is_entry, is_message, is_text, merge_entry, merge_message, push_message,
    put_flag, put_map, put_messages, put_option, put_signed, set_text,
};
use std::alloc::{AllocError, Global};

/// A message without known fields. All its fields are checked and skipped.
#[derive(Clone, Copy)]
pub struct NoFields;

impl Message<Csi> for NoFields {
    ghost schema = { AnyPayload };

    ghost of = { nothing_in };

    fn empty(_alloc: Global) -> NoFields {
        NoFields
    }

    fn is_good(_number: u32, _payload: &[u8]) -> bool {
        true
    }

    fn merge_number(&mut self, _number: u32, _value: u64) {}

    fn merge_payload(
        &mut self,
        _alloc: Global,
        _number: u32,
        _payload: &[u8],
    ) -> Result<(), AllocError> {
        Ok(())
    }
}

/// `google.protobuf.BoolValue`, a message with a flag: `value`, field 1.
pub type BoolValue = bool;

#[tactic(auto, using(pbmessage::specs::facts::Views::last_after))]
impl Message<Csi> for BoolValue {
    ghost schema = { AnyPayload };

    ghost of = { bool_value_in };

    fn empty(_alloc: Global) -> BoolValue {
        false
    }

    fn is_good(_number: u32, _payload: &[u8]) -> bool {
        true
    }

    fn merge_number(&mut self, number: u32, value: u64) {
        if number == 1 {
            *self = value != 0;
        }
    }

    fn merge_payload(
        &mut self,
        _alloc: Global,
        _number: u32,
        _payload: &[u8],
    ) -> Result<(), AllocError> {
        Ok(())
    }
}

/// `google.protobuf.Int64Value`, a message with a number: `value`, field 1.
pub type Int64Value = i64;

#[tactic(auto, using(pbmessage::specs::facts::Views::last_after, pbmessage::specs::facts::Views::signed_kept))]
impl Message<Csi> for Int64Value {
    ghost schema = { AnyPayload };

    ghost of = { int64_value_in };

    fn empty(_alloc: Global) -> Int64Value {
        0
    }

    fn is_good(_number: u32, _payload: &[u8]) -> bool {
        true
    }

    fn merge_number(&mut self, number: u32, value: u64) {
        if number == 1 {
            *self = value.cast_signed();
        }
    }

    fn merge_payload(
        &mut self,
        _alloc: Global,
        _number: u32,
        _payload: &[u8],
    ) -> Result<(), AllocError> {
        Ok(())
    }
}

/// A message whose one field, field 1, is the number of an enum: `AccessMode`, `PluginCapability.Service` or
/// `ControllerServiceCapability.RPC`.
pub type EnumValue = i32;

#[tactic(auto, using(pbmessage::specs::facts::Views::last_after, pbmessage::specs::facts::Views::signed_kept_32))]
impl Message<Csi> for EnumValue {
    ghost schema = { AnyPayload };

    ghost of = { enum_value_in };

    fn empty(_alloc: Global) -> EnumValue {
        0
    }

    fn is_good(_number: u32, _payload: &[u8]) -> bool {
        true
    }

    fn merge_number(&mut self, number: u32, value: u64) {
        if number == 1 {
            *self = low_half(value);
        }
    }

    fn merge_payload(
        &mut self,
        _alloc: Global,
        _number: u32,
        _payload: &[u8],
    ) -> Result<(), AllocError> {
        Ok(())
    }
}

/// A message whose one field, field 1, is an embedded message.
impl<M: Message<Csi>> Message<Csi> for Option<M> {
    ghost schema = { only_schema M.schema };

    ghost of = { only_in M.of };

    fn empty(_alloc: Global) -> Option<M> {
        None
    }

    fn is_good(number: u32, payload: &[u8]) -> bool {
        match number {
            1 => is_message::<Csi, M>(payload),
            _ => true,
        }
    }

    fn merge_number(&mut self, _number: u32, _value: u64) {}

    fn merge_payload(
        &mut self,
        alloc: Global,
        number: u32,
        payload: &[u8],
    ) -> Result<(), AllocError> {
        match number {
            1 => merge_message(self, alloc, payload),
            _ => Ok(()),
        }
    }
}

/// Returns the low 32 bits of a varint as a signed number, which is the value of a field of type `int32` or
/// of an enum.
pub fn low_half(value: u64) -> i32
    ensures { result ≡ cast_signed w32 (value % 2 ^ 32) }
{
    ((value % (1 << 32)) as u32).cast_signed()
}

/// `PluginCapability` or `ControllerServiceCapability`. Field 1 is a message whose one field is the number of
/// an enum.
pub type ServiceCapability = Option<EnumValue>;

/// A message whose one field, field 1, is repeated: the capabilities of a service.
impl Message<Csi> for Items<ServiceCapability> {
    ghost schema = { types_schema };

    ghost of = { types_in };

    fn empty(alloc: Global) -> Items<ServiceCapability> {
        Items::new(alloc)
    }

    fn is_good(number: u32, payload: &[u8]) -> bool {
        match number {
            1 => is_message::<Csi, ServiceCapability>(payload),
            _ => true,
        }
    }

    fn merge_number(&mut self, _number: u32, _value: u64) {}

    fn merge_payload(
        &mut self,
        alloc: Global,
        number: u32,
        payload: &[u8],
    ) -> Result<(), AllocError> {
        match number {
            1 => push_message(self, alloc, payload)?,
            _ => {}
        }
        Ok(())
    }
}

#[tactic(auto, using(pbmessage::specs::facts::Writing::wrote_two, pbmessage::specs::facts::Writing::keeps_on))]
impl Written<Csi> for BoolValue {
    ghost canon = { canon_bool_value };

    ghost fits = { FitsBoolValue };

    fn write(&self, out: &mut Vec<u8>) -> Result<(), AllocError> {
        put_flag(out, 1, *self)?;
        Ok(())
    }
}

#[tactic(auto, using(pbmessage::specs::facts::Writing::wrote_two, pbmessage::specs::facts::Writing::keeps_on))]
impl Written<Csi> for Int64Value {
    ghost canon = { canon_number };

    ghost fits = { FitsI64 };

    fn write(&self, out: &mut Vec<u8>) -> Result<(), AllocError> {
        put_signed(out, 1, *self)?;
        Ok(())
    }
}

#[tactic(auto, using(pbmessage::specs::facts::Writing::wrote_two, pbmessage::specs::facts::Writing::keeps_on))]
impl Written<Csi> for EnumValue {
    ghost canon = { canon_number };

    ghost fits = { FitsI32 };

    fn write(&self, out: &mut Vec<u8>) -> Result<(), AllocError> {
        put_signed(out, 1, i64::from(*self))?;
        Ok(())
    }
}

impl<M: Written<Csi>> Written<Csi> for Option<M> {
    ghost canon = { canon_only M.canon };

    ghost fits = { FitsOption M.fits M.canon };

    fn write(&self, out: &mut Vec<u8>) -> Result<(), AllocError> {
        put_option(out, 1, self)?;
        Ok(())
    }
}

#[tactic(auto, using(pbmessage::specs::facts::Writing::wrote_two, pbmessage::specs::facts::Writing::keeps_on))]
impl Written<Csi> for Items<ServiceCapability> {
    ghost canon = { canon_types };

    ghost fits = { FitsTypes };

    fn write(&self, out: &mut Vec<u8>) -> Result<(), AllocError> {
        put_messages(out, 1, self)?;
        Ok(())
    }
}

/// A message whose one field, field 1, is a map: the segments of a `Topology`, or the `publish_context` of
/// ControllerPublishVolume.
impl Message<Csi> for Map {
    ghost schema = { map_schema };

    ghost of = { map_in };

    fn empty(alloc: Global) -> Map {
        Map::new(alloc)
    }

    fn is_good(number: u32, payload: &[u8]) -> bool {
        match number {
            1 => is_entry(payload),
            _ => true,
        }
    }

    fn merge_number(&mut self, _number: u32, _value: u64) {}

    fn merge_payload(
        &mut self,
        alloc: Global,
        number: u32,
        payload: &[u8],
    ) -> Result<(), AllocError> {
        match number {
            1 => merge_entry(self, alloc, payload)?,
            _ => {}
        }
        Ok(())
    }
}

#[tactic(auto, using(pbmessage::specs::facts::Writing::wrote_two, pbmessage::specs::facts::Writing::keeps_on))]
impl Written<Csi> for Map {
    ghost canon = { canon_map };

    ghost fits = { FitsMap };

    fn write(&self, out: &mut Vec<u8>) -> Result<(), AllocError> {
        put_map(out, 1, self)?;
        Ok(())
    }
}
