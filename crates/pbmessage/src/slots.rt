//! Checks one payload, and merges it into a part of a message.

ghost use Rattle.std.specs.Prelude.{◌≡◌, ◌↔◌, ◌++◌, ◌∷◌, [], IsTrue, IsUtf8, IfOk, OnOk};
ghost use Rattle.pbmessage.specs.Schema.{GoodField, Good, map_entry_schema};
ghost use Rattle.pbmessage.specs.Fields.{AreGood, fields_of};
ghost use Rattle.pbmessage.specs.Views.{Payloads, value_of, inner, messages, text_map};

use crate::entry::{Entries, MapEntry};
use crate::message::{Message, first_fault, merge, read};
use csi_types::{Items, Map, Text};
use std::alloc::{AllocError, Global};

/// Returns true if the payload is a text: valid UTF-8.
pub fn is_text(payload: &[u8]) -> bool
    ensures { IsTrue result ↔ IsUtf8 payload.now }
{
    // Most texts are short and ASCII.
    if payload.len() < 8 && payload.is_ascii() {
        return true;
    }
    simdutf8::basic::from_utf8(payload).is_ok()
}

/// Copies the payload, which must be UTF-8, to a text. Fails if memory is refused.
pub fn text(alloc: Global, payload: &[u8]) -> Result<Text, AllocError>
    requires { IsUtf8 payload.now }
    ensures { IfOk result (λ text. text ≡ payload.now) }
{
    // The pass that looked for faults has found that these bytes are UTF-8.
    Text::from_str(alloc, unsafe { std::str::from_utf8_unchecked(payload) })
}

/// Sets a text to the payload, which must be UTF-8. Allocates only if the text does not have enough memory
/// already. Fails if memory is refused.
pub fn set_text(slot: &mut Text, payload: &[u8]) -> Result<(), AllocError>
    requires { IsUtf8 payload.now }
    ensures { OnOk result (slot.new ≡ payload.now) }
{
    // The pass that looked for faults has found that these bytes are UTF-8.
    slot.set(unsafe { std::str::from_utf8_unchecked(payload) })
}

/// Returns true if the payload is a well-formed message of type `M`.
pub fn is_message<P, M: Message<P>>(payload: &[u8]) -> bool
    ensures { IsTrue result ↔ AreGood (GoodField (Good M.schema)) payload.now }
{
    first_fault::<P, M>(payload).is_none()
}

/// Merges the payload of an embedded message into `slot`. `slot` has the message of the earlier occurrences
/// of the field, or `None` if there are none. The payload must be well-formed. Fails if memory is refused.
pub fn merge_message<P, M: Message<P>>(
    slot: &mut Option<M>,
    alloc: Global,
    payload: &[u8],
) -> Result<(), AllocError>
    requires { AreGood (GoodField (Good M.schema)) payload.now }
    ensures { OnOk result ((ps : Payloads) → slot.old ≡ inner (value_of M.of) ps
        → slot.new ≡ inner (value_of M.of) (ps ++ payload.now ∷ [])) }
{
    match slot {
        Some(message) => merge(message, alloc, payload)?,
        None => *slot = Some(read(alloc, payload)?),
    }
    Ok(())
}

/// Appends the message in the payload to a repeated field. The payload must be well-formed. Fails if memory
/// is refused.
pub fn push_message<P, M: Message<P>>(
    items: &mut Items<M>,
    alloc: Global,
    payload: &[u8],
) -> Result<(), AllocError>
    requires { AreGood (GoodField (Good M.schema)) payload.now }
    ensures { OnOk result ((ps : Payloads) → items.old ≡ messages (value_of M.of) ps
        → items.new ≡ messages (value_of M.of) (ps ++ payload.now ∷ [])) }
{
    items.push(read(alloc, payload)?)?;
    Ok(())
}

/// Returns true if the payload is a well-formed entry of a map of texts.
pub fn is_entry(payload: &[u8]) -> bool
    ensures { IsTrue result ↔ AreGood (GoodField (Good map_entry_schema)) payload.now }
{
    is_message::<Entries, MapEntry>(payload)
}

/// Inserts the entry in the payload into a map, replacing an earlier entry with the same key. The payload
/// must be well-formed. Fails if memory is refused.
pub fn merge_entry(map: &mut Map, alloc: Global, payload: &[u8]) -> Result<(), AllocError>
    requires { AreGood (GoodField (Good map_entry_schema)) payload.now }
    ensures { OnOk result ((ps : Payloads) → map.old ≡ text_map ps
        → map.new ≡ text_map (ps ++ payload.now ∷ [])) }
{
    let (key, value) = read::<Entries, MapEntry>(alloc, payload)?;
    map.insert(key, value)
}
