//! Converts numbers of volumes to texts and back, for volume ids and the tokens of a listing.

ghost use Rattle.std.specs.Prelude.{◌≡◌, IfOk};
ghost use Rattle.std.specs.Fmt.{decimal};
ghost use Rattle.csi_types.specs.Maps.{same_text};
ghost use Rattle.csi_rules.specs.Ids.{number_of, number_of_id};

use csi_types::Text;
use itoa::Buffer;
use std::alloc::{AllocError, Global};

/// The first part of each volume id. The number of the volume in decimal follows it.
pub const ID_PREFIX: &str = "vol-";

/// Returns the number in decimal, without leading zeros.
///
/// # Errors
///
/// If memory is refused.
pub fn decimal_of(alloc: Global, number: u64) -> Result<Text, AllocError>
    ensures { IfOk result (λ t. t ≡ decimal number) }
{
    Text::from_str(alloc, Buffer::new().format(number))
}

fn is_decimal_of(number: u64, text: &str) -> bool
    ensures { result ≡ same_text (decimal number) text.now }
{
    Buffer::new().format(number) == text
}

/// Returns the number whose decimal form is the text. Returns `None` if no number below 2^64 has this form,
/// for example if the text has a leading zero.
#[tactic(auto, using(crate::specs::facts::Ids::is_decimal, crate::specs::facts::Ids::no_decimal))]
pub fn number_of(text: &str) -> Option<u64>
    ensures { result ≡ number_of text.now }
{
    let Ok(number) = text.parse::<u64>() else {
        return None;
    };
    is_decimal_of(number, text).then_some(number)
}

/// Returns the number in the id of a volume (CSI specification, 'CreateVolume', `Volume.volume_id`), or
/// `None` if the text does not have the form of a volume id. The volume need not exist.
pub fn number_of_id(text: &str) -> Option<u64>
    ensures { result ≡ number_of_id text.now }
{
    number_of(text.strip_prefix(ID_PREFIX)?)
}
