//! Answers rows about values, such as codes, reasons, names, texts, lists and maps.

use crate::shown::{displayed, in_rust};
use csi_types::{
    Access, Boxed, Capability, Code, Map, Mount, Reason, copy_capability, copy_map, has_each,
    laid_over, map_bytes, method_of, name_reason,
};
use std::alloc::Global;
use std::convert::AsStr;
use std::fmt::Write;
use test_kit::{RowFault, map_of, number_at, text_at, texts_of, word_at};

// All reasons for refusals, in the order of their declaration.
const REASONS: [Reason; 36] = [
    Reason::NameMissing,
    Reason::NameTooLong,
    Reason::NameBanned,
    Reason::CapabilityMissing,
    Reason::AccessTypeMissing,
    Reason::AccessModeUnknown,
    Reason::CapabilityNotSupported,
    Reason::CapacityNegative,
    Reason::MapTooLarge,
    Reason::TextTooLong,
    Reason::SourceNotSupported,
    Reason::TopologyKeysAlike,
    Reason::PreferredNotRequisite,
    Reason::VolumeIdMissing,
    Reason::NodeIdMissing,
    Reason::MaxEntriesNegative,
    Reason::MutableMissing,
    Reason::UnknownMethod,
    Reason::VolumeNotFound,
    Reason::NodeNotFound,
    Reason::VolumeNotCompatible,
    Reason::NoRoom,
    Reason::TooManyVolumes,
    Reason::NumbersUsedUp,
    Reason::OutOfRange,
    Reason::VolumeInUse,
    Reason::PublishedElsewhere,
    Reason::PublishedOtherwise,
    Reason::NodeFull,
    Reason::CapabilityNotOfVolume,
    Reason::BadToken,
    Reason::MutableTooLarge,
    Reason::ReplyTooLarge,
    Reason::OutOfMemory,
    Reason::StoreRefused,
    Reason::StoreDown,
];

/// Answers `code NUMBER` with the name of the status code with this number, or `no code`.
pub(crate) fn code_answer(alloc: Global, words: &[&str]) -> Result<String, RowFault> {
    match Code::of(number_at(words, 0)?) {
        Some(code) => displayed(alloc, &code.name()),
        None => displayed(alloc, &"no code"),
    }
}

/// Answers `reason NAME` with the number of the reason's status code, and the reason's text.
pub(crate) fn reason_answer(alloc: Global, words: &[&str]) -> Result<String, RowFault> {
    let name = word_at(words, 0)?;
    for reason in REASONS {
        if in_rust(alloc, &reason)?.as_str() == name {
            return Ok(format!(in alloc; "{} {reason}", reason.code().number())?);
        }
    }
    Err(RowFault::NotRow)
}

/// Answers `method PATH` with the method that has this path, or `no method`.
pub(crate) fn method_answer(alloc: Global, words: &[&str]) -> Result<String, RowFault> {
    let path = text_at(alloc, words, 0)?;
    match method_of(path.as_bytes()) {
        Some(method) => in_rust(alloc, &method),
        None => displayed(alloc, &"no method"),
    }
}

/// Answers `name TEXT` with the reason why no volume may have this name, or `passed`.
pub(crate) fn name_answer(alloc: Global, words: &[&str]) -> Result<String, RowFault> {
    let name = text_at(alloc, words, 0)?;
    match name_reason(name.as_str()) {
        Some(reason) => displayed(alloc, &reason),
        None => displayed(alloc, &"passed"),
    }
}

fn bytes_after<T: AsStr>(text: &T) -> usize {
    text.as_str().len()
}

/// Answers `text TEXT` with the text and its length in bytes. The text is at the right end of a column that
/// is eight characters wide.
pub(crate) fn text_answer(alloc: Global, words: &[&str]) -> Result<String, RowFault> {
    let text = text_at(alloc, words, 0)?;
    Ok(format!(in alloc; "[{text:>8}] of {} bytes", bytes_after(&text))?)
}

/// Answers `list TEXT ..` with the texts of the list, in the order in which the list is iterated.
pub(crate) fn list_answer(alloc: Global, words: &[&str]) -> Result<String, RowFault> {
    let texts = texts_of(alloc, words)?;
    let mut reported = String::new(alloc);
    for text in &texts {
        write!(reported, "[{text}]")?;
    }
    Ok(reported)
}

/// Answers `map KEY VALUE ..` with the entries of a copy of the map, in the order in which the copy is
/// iterated.
pub(crate) fn map_answer(alloc: Global, words: &[&str]) -> Result<String, RowFault> {
    entries_reported(alloc, &copy_map(alloc, &map_of(alloc, words)?)?)
}

fn entries_reported(alloc: Global, map: &Map) -> Result<String, RowFault> {
    let mut reported = String::new(alloc);
    for (key, value) in map {
        write!(reported, "[{key}={value}]")?;
    }
    Ok(reported)
}

/// Answers `over KEY VALUE .. under KEY VALUE ..`: lays the first map over the second. The answer is the
/// entries of the result, the length of the result in bytes, and `had each` if the second map had each entry
/// of the first, otherwise `had not each`.
pub(crate) fn over_answer(alloc: Global, words: &[&str]) -> Result<String, RowFault> {
    let parts = words.iter().position(|word| *word == "under");
    let place = parts.ok_or(RowFault::NotRow)?;
    let given = map_of(alloc, words.get(..place).unwrap_or_default())?;
    let map = map_of(alloc, words.get(place + 1..).unwrap_or_default())?;
    let laid = laid_over(alloc, &map, &given)?;
    let reported = entries_reported(alloc, &laid)?;
    let had = if has_each(&map, &given) {
        "had"
    } else {
        "had not"
    };
    Ok(format!(in alloc; "{reported} of {} bytes; {had} each", map_bytes(&laid))?)
}

/// Answers `capability none`, `capability block` or `capability mount TYPE GROUP MODE FLAG ..` with a copy of
/// the capability as a Rust expression.
pub(crate) fn capability_answer(alloc: Global, words: &[&str]) -> Result<String, RowFault> {
    let capability = capability_of(alloc, words)?;
    in_rust(alloc, &copy_capability(alloc, &capability)?)
}

fn capability_of(alloc: Global, words: &[&str]) -> Result<Capability, RowFault> {
    match word_at(words, 0)? {
        "none" => Ok(Capability {
            access: Access::Missing,
            mode: None,
        }),
        "block" => Ok(Capability {
            access: Access::Block,
            mode: None,
        }),
        "mount" => Ok(Capability {
            mode: Some(number_at(words, 3)?),
            access: Access::Mount(Boxed::new(alloc, mount_of(alloc, words)?)?),
        }),
        _ => Err(RowFault::NotRow),
    }
}

fn mount_of(alloc: Global, words: &[&str]) -> Result<Mount, RowFault> {
    Ok(Mount {
        fs_type: text_at(alloc, words, 1)?,
        group: text_at(alloc, words, 2)?,
        flags: texts_of(alloc, words.get(4..).unwrap_or_default())?,
    })
}
