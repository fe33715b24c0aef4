//! Tests if a volume can have a name.

ghost use Rattle.std.specs.Prelude.{◌≡◌};
ghost use Rattle.std.specs.List.{list_all};
ghost use Rattle.csi_types.specs.Names.{refused_name, holds_banned, is_banned, is_plain};

use crate::limits::MAX_TEXT_BYTES;
use crate::reason::Reason;

/// Returns why no volume can have this name, or `None` if a volume can have it (CSI specification,
/// 'CreateVolume', the field `name`). The result is the first of these that applies:
///
/// - `NameMissing`, if the name is empty
/// - `NameTooLong`, if it has more than 128 bytes
/// - `NameBanned`, if it contains one of U+0000 to U+0008, U+000B, U+000C, U+000E to U+001F and U+007F to
///   U+009F
pub fn name_reason(name: &str) -> Option<Reason>
    ensures { result ≡ refused_name name.now }
{
    if name.is_empty() {
        Some(Reason::NameMissing)
    } else if name.len() > MAX_TEXT_BYTES {
        Some(Reason::NameTooLong)
    } else if holds_banned(name) {
        Some(Reason::NameBanned)
    } else {
        None
    }
}

fn holds_banned(text: &str) -> bool
    ensures { result ≡ holds_banned text.now }
{
    !is_plain(text.as_bytes()) && text.chars().any(is_banned)
}

/// Returns true if all bytes are printable ASCII. No such byte is banned, and almost all names have only such
/// bytes.
fn is_plain(bytes: &[u8]) -> bool
    ensures { result ≡ list_all is_plain bytes.now }
{
    bytes.iter().all(|byte| (0x20..=0x7e).contains(byte))
}

fn is_banned(character: char) -> bool
    ensures { result ≡ is_banned character }
{
    matches!(
        character,
        '\0'..='\u{8}' | '\u{b}' | '\u{c}' | '\u{e}'..='\u{1f}' | '\u{7f}'..='\u{9f}'
    )
}
