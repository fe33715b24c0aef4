//! Entries of maps, which are encoded as messages (Protocol Buffers encoding guide, 'Maps').

ghost use Rattle.std.specs.Prelude.{◌≡◌};
ghost use Rattle.pbmessage.specs.Schema.{map_entry_schema};
ghost use Rattle.pbmessage.specs.Views.{map_entry_in};

use crate::message::Message;
use crate::slots::{is_text, set_text};
use csi_types::Text;
use std::alloc::{AllocError, Global};

/// Represents the package of [`MapEntry`], as the parameter `P` of [`Message`].
pub struct Entries;

/// An entry of a map of texts: its key, field 1, and its value, field 2.
pub type MapEntry = (Text, Text);

#[tactic(auto, using(crate::specs::facts::Views::last_after))]
impl Message<Entries> for MapEntry {
    ghost schema = { map_entry_schema };

    ghost of = { map_entry_in };

    fn empty(alloc: Global) -> MapEntry {
        (Text::new(alloc), Text::new(alloc))
    }

    fn is_good(number: u32, payload: &[u8]) -> bool {
        match number {
            1 | 2 => is_text(payload),
            _ => true,
        }
    }

    fn merge_number(&mut self, _number: u32, _value: u64) {}

    fn merge_payload(
        &mut self,
        _alloc: Global,
        number: u32,
        payload: &[u8],
    ) -> Result<(), AllocError> {
        match number {
            1 => set_text(&mut self.0, payload)?,
            2 => set_text(&mut self.1, payload)?,
            _ => {}
        }
        Ok(())
    }
}
