//! Responses that have several fields: the types to decode them into, and the functions that encode them.

ghost use Rattle.std.specs.Prelude.{◌≡◌, ◌++◌, OnOk};
ghost use Rattle.pbmessage.specs.Canon.{bytes_of};
ghost use Rattle.pbmessage.specs.Kept.{Keeps};
ghost use Rattle.csi_codec.specs.messages.ResponseParts.{info_in, info_schema, canon_info, FitsInfo, validation_in, validation_schema, canon_validation, FitsValidation, listing_in, listing_schema, canon_listing, FitsListing, free_in, free_schema, canon_free, FitsFree};

use crate::messages::Csi;
use crate::messages::values::Int64Value;
use csi_types::{Confirmed, Entry, Items, Text};
use pbmessage::{
    Message, is_message, is_text, merge_message, push_message, put_messages, put_option,
    put_signed, put_text, set_text,
};
use std::alloc::{AllocError, Global};

/// `GetPluginInfoResponse`: `name`, field 1, and `vendor_version`, field 2.
#[derive(Drop)]
pub struct PluginInfo {
    pub name: Text,
    pub version: Text,
}

/// `ValidateVolumeCapabilitiesResponse`: `confirmed`, field 1, and `message`, field 2.
#[derive(Drop)]
pub struct Validation {
    pub confirmed: Option<Confirmed>,
    pub message: Text,
}

/// `ListVolumesResponse`: `entries`, field 1, and `next_token`, field 2.
#[derive(Drop)]
pub struct Listing {
    pub entries: Items<Entry>,
    pub token: Text,
}

/// `GetCapacityResponse`: `available_capacity`, field 1, and `maximum_volume_size`, field 2, in bytes.
#[derive(Drop)]
pub struct FreeCapacity {
    pub available: i64,
    pub maximum: Option<i64>,
}

#[tactic(auto, using(pbmessage::specs::facts::Views::last_after))]
impl Message<Csi> for PluginInfo {
    ghost schema = { info_schema };

    ghost of = { info_in };

    fn empty(alloc: Global) -> PluginInfo {
        PluginInfo {
            name: Text::new(alloc),
            version: Text::new(alloc),
        }
    }

    fn is_good(number: u32, payload: &[u8]) -> bool {
        match number {
            1 | 2 => is_text(payload),
            _ => true,
        }
    }

    fn merge_number(&mut self, _number: u32, _value: u64) {}

    fn merge_payload(
        &mut self,
        _alloc: Global,
        number: u32,
        payload: &[u8],
    ) -> Result<(), AllocError> {
        match number {
            1 => set_text(&mut self.name, payload)?,
            2 => set_text(&mut self.version, payload)?,
            _ => {}
        }
        Ok(())
    }
}

#[tactic(auto, using(pbmessage::specs::facts::Views::last_after))]
impl Message<Csi> for Validation {
    ghost schema = { validation_schema };

    ghost of = { validation_in };

    fn empty(alloc: Global) -> Validation {
        Validation {
            confirmed: None,
            message: Text::new(alloc),
        }
    }

    fn is_good(number: u32, payload: &[u8]) -> bool {
        match number {
            1 => is_message::<Csi, Confirmed>(payload),
            2 => is_text(payload),
            _ => true,
        }
    }

    fn merge_number(&mut self, _number: u32, _value: u64) {}

    fn merge_payload(
        &mut self,
        alloc: Global,
        number: u32,
        payload: &[u8],
    ) -> Result<(), AllocError> {
        match number {
            1 => merge_message(&mut self.confirmed, alloc, payload)?,
            2 => set_text(&mut self.message, payload)?,
            _ => {}
        }
        Ok(())
    }
}

#[tactic(auto, using(pbmessage::specs::facts::Views::last_after))]
impl Message<Csi> for Listing {
    ghost schema = { listing_schema };

    ghost of = { listing_in };

    fn empty(alloc: Global) -> Listing {
        Listing {
            entries: Items::new(alloc),
            token: Text::new(alloc),
        }
    }

    fn is_good(number: u32, payload: &[u8]) -> bool {
        match number {
            1 => is_message::<Csi, Entry>(payload),
            2 => is_text(payload),
            _ => true,
        }
    }

    fn merge_number(&mut self, _number: u32, _value: u64) {}

    fn merge_payload(
        &mut self,
        alloc: Global,
        number: u32,
        payload: &[u8],
    ) -> Result<(), AllocError> {
        match number {
            1 => push_message(&mut self.entries, alloc, payload)?,
            2 => set_text(&mut self.token, payload)?,
            _ => {}
        }
        Ok(())
    }
}

#[tactic(auto, using(pbmessage::specs::facts::Views::last_after, pbmessage::specs::facts::Views::signed_kept))]
impl Message<Csi> for FreeCapacity {
    ghost schema = { free_schema };

    ghost of = { free_in };

    fn empty(_alloc: Global) -> FreeCapacity {
        FreeCapacity {
            available: 0,
            maximum: None,
        }
    }

    fn is_good(number: u32, payload: &[u8]) -> bool {
        match number {
            2 => is_message::<Csi, Int64Value>(payload),
            _ => true,
        }
    }

    fn merge_number(&mut self, number: u32, value: u64) {
        if number == 1 {
            self.available = value.cast_signed();
        }
    }

    fn merge_payload(
        &mut self,
        alloc: Global,
        number: u32,
        payload: &[u8],
    ) -> Result<(), AllocError> {
        match number {
            2 => merge_message(&mut self.maximum, alloc, payload)?,
            _ => {}
        }
        Ok(())
    }
}

/// Appends a `GetPluginInfoResponse` with this name and vendor version. If memory is refused, a part of the
/// response may have been appended.
pub fn put_plugin_info(out: &mut Vec<u8>, name: &Text, version: &Text) -> Result<(), AllocError>
    ensures ok { OnOk result (out.new.items ≡ out.old.items ++ bytes_of (canon_info (record {
      name = name.now;
      version = version.now;
    }))) }
    ensures fitting { OnOk result (FitsInfo (record { name = name.now; version = version.now })) }
    ensures kept { Keeps out.old.items out.new.items }
{
    put_text(out, 1, name)?;
    put_text(out, 2, version)?;
    Ok(())
}

/// Appends a `ValidateVolumeCapabilitiesResponse` with `confirmed` and `message` as given. If memory is
/// refused, a part of the response may have been appended.
pub fn put_validation(
    out: &mut Vec<u8>,
    confirmed: &Option<Confirmed>,
    message: &Text,
) -> Result<(), AllocError>
    ensures ok { OnOk result (out.new.items
        ≡ out.old.items ++ bytes_of (canon_validation (record {
          confirmed = confirmed.now;
          message = message.now;
        }))) }
    ensures fitting { OnOk result (FitsValidation (record {
      confirmed = confirmed.now;
      message = message.now;
    })) }
    ensures kept { Keeps out.old.items out.new.items }
{
    put_option(out, 1, confirmed)?;
    put_text(out, 2, message)?;
    Ok(())
}

/// Appends a `ListVolumesResponse` with these entries and this `next_token`. If memory is refused, a part of
/// the response may have been appended.
pub fn put_listing(
    out: &mut Vec<u8>,
    entries: &Items<Entry>,
    token: &Text,
) -> Result<(), AllocError>
    ensures ok { OnOk result (out.new.items
        ≡ out.old.items ++ bytes_of (canon_listing (record { entries = entries.now; token = token.now }))) }
    ensures fitting { OnOk result (FitsListing (record { entries = entries.now; token = token.now })) }
    ensures kept { Keeps out.old.items out.new.items }
{
    put_messages(out, 1, entries)?;
    put_text(out, 2, token)?;
    Ok(())
}

/// Appends a `GetCapacityResponse` with this available capacity and maximum volume size, in bytes. If memory
/// is refused, a part of the response may have been appended.
pub fn put_free_capacity(
    out: &mut Vec<u8>,
    available: i64,
    maximum: &Option<Int64Value>,
) -> Result<(), AllocError>
    ensures ok { OnOk result (out.new.items
        ≡ out.old.items ++ bytes_of (canon_free (record { available = available; maximum = maximum.now }))) }
    ensures fitting { OnOk result (FitsFree (record { available = available; maximum = maximum.now })) }
    ensures kept { Keeps out.old.items out.new.items }
{
    put_signed(out, 1, available)?;
    put_option(out, 2, maximum)?;
    Ok(())
}
