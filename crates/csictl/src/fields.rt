//! Reads the fields of a message from the arguments.

ghost use Rattle.std.specs.Prelude.{◌≡◌};
ghost use Rattle.csictl.specs.Faults.{failure_of};
ghost use Rattle.csictl.specs.declared.fields.FieldFault.TheVariants.{NoMemory};

use crate::command::fields;
use crate::failure::Failure;
use crate::modes::mode_of;
use crate::sizes::bytes_of;
use clap::ArgMatches;
use command_line::{CommandOption, is_decimal};
use csi_types::{
    Access, Boxed, Capability, CapacityRange, Items, Map, Method, Mount, Requirement, Text,
};
use std::alloc::{AllocError, AllocFailed, Global};

/// The reason why the value of an option is not a field. The type is small, so that functions that read many
/// fields stay small.
#[derive(Clone, Copy)]
pub(crate) enum FieldFault {
    /// A pair of a key and a value has no `=`.
    NotPair,
    /// Memory is refused.
    NoMemory,
}

impl From<AllocError> for FieldFault {
    ghost from_gives = { λ _ fault. fault ≡ NoMemory };

    fn from(_: AllocError) -> FieldFault {
        FieldFault::NoMemory
    }
}

impl<T: Drop> From<AllocFailed<T>> for FieldFault {
    ghost from_gives = { λ _ fault. fault ≡ NoMemory };

    fn from(_: AllocFailed<T>) -> FieldFault {
        FieldFault::NoMemory
    }
}

impl From<FieldFault> for Failure {
    ghost from_gives = { λ fault failure. failure ≡ failure_of fault };

    fn from(fault: FieldFault) -> Failure {
        match fault {
            FieldFault::NotPair => Failure::NotPair,
            FieldFault::NoMemory => Failure::NoMemory,
        }
    }
}

// Returns the names of the options that are fields of a method's request.
fn fields_of(method: Method) -> &'static [&'static str] {
    match method {
        Method::CreateVolume => &[
            "name",
            "required",
            "limit",
            "mode",
            "fs",
            "parameters",
            "mutable",
            "topology",
        ],
        Method::DeleteVolume => &["volume"],
        Method::ControllerPublishVolume => &["volume", "node", "mode", "fs", "readonly"],
        Method::ControllerUnpublishVolume => &["volume", "node"],
        Method::ValidateVolumeCapabilities => &["volume", "mode", "fs", "parameters"],
        Method::ControllerModifyVolume => &["volume", "mutable"],
        Method::ListVolumes => &["max", "token"],
        Method::GetCapacity => &["mode", "fs", "parameters", "topology"],
        Method::GetPluginInfo
        | Method::GetPluginCapabilities
        | Method::Probe
        | Method::ControllerGetCapabilities => &[],
    }
}

// Returns true if the option is given: `--readonly` as a flag, or any other option with a value.
fn is_given(arguments: &ArgMatches<'_>, name: &str) -> bool {
    if name == "readonly" {
        arguments.get_flag(name)
    } else {
        arguments.get_str(name).is_some()
    }
}

// Returns true if the option takes a number and its value is not decimal digits alone. The check is needed
// since `clap` accepts a sign.
fn is_odd(arguments: &ArgMatches<'_>, field: &CommandOption) -> bool {
    match arguments.get_str(field.name) {
        Some(text) => field.is_number() && !is_decimal(text),
        None => false,
    }
}

/// Checks that no option for a field of a message is given.
///
/// # Errors
///
/// [`Failure::WithMessage`] with the first such option that is given.
pub(crate) fn give_none(arguments: &ArgMatches<'_>) -> Result<(), Failure> {
    for field in fields() {
        if is_given(arguments, field.name) {
            return Err(Failure::WithMessage(field.name));
        }
    }
    Ok(())
}

// Makes a list with one item, or an empty list for `None`.
fn list_of<T: Drop>(alloc: Global, item: Option<T>) -> Result<Items<T>, FieldFault> {
    let mut list = Vec::new(alloc);
    if let Some(item) = item {
        list.push(item)?;
    }
    Ok(Items::from_vec(list))
}

// Returns the range of sizes in bytes, in which a bound that is not given is 0. Returns `None` if neither
// bound is given.
fn range_of(required: Option<i64>, limit: Option<i64>) -> Option<CapacityRange> {
    if required.is_none() && limit.is_none() {
        return None;
    }
    Some(CapacityRange {
        required: required.unwrap_or(0),
        limit: limit.unwrap_or(0),
    })
}

// Returns the size in an option, in bytes, or `None` if the option is not given.
fn size(arguments: &ArgMatches<'_>, name: &'static str) -> Result<Option<i64>, Failure> {
    let Some(text) = arguments.get_str(name) else {
        return Ok(None);
    };
    match bytes_of(text) {
        Some(bytes) => Ok(Some(bytes)),
        None => Err(Failure::NotSize(name)),
    }
}

// Returns the number of the access mode in `--mode`, or SINGLE_NODE_WRITER without the option.
fn mode(arguments: &ArgMatches<'_>) -> Result<i32, Failure> {
    let Some(text) = arguments.get_str("mode") else {
        return Ok(SINGLE_NODE_WRITER);
    };
    mode_of(text).ok_or(Failure::NotMode("mode"))
}

// The number of the access mode SINGLE_NODE_WRITER (CSI specification, 'CreateVolume').
const SINGLE_NODE_WRITER: i32 = 1;

/// The fields of a message, from the arguments of a command.
#[derive(Clone, Copy)]
pub(crate) struct Fields<'m, 'a> {
    alloc: Global,
    arguments: &'m ArgMatches<'a>,
    range: Option<CapacityRange>,
    mode: Option<i32>,
    // True if the command is one of the commands for people, whose options have other names.
    is_person: bool,
}

impl<'m, 'a> Fields<'m, 'a> {
    /// Reads the fields in the arguments of a command that works on frames.
    ///
    /// # Errors
    ///
    /// If the method's request has no field for an option, or a number is not written in decimal digits
    /// alone.
    pub(crate) fn new(
        alloc: Global,
        method: Method,
        arguments: &'m ArgMatches<'a>,
    ) -> Result<Fields<'m, 'a>, Failure> {
        let known = fields_of(method);
        for field in fields() {
            if is_given(arguments, field.name) && !known.contains(&field.name) {
                return Err(Failure::NoField {
                    method,
                    option: field.name,
                });
            }
            if is_odd(arguments, field) {
                return Err(Failure::NotDecimal(field.name));
            }
        }
        let required = arguments.get_one::<i64>("required");
        let limit = arguments.get_one::<i64>("limit");
        Ok(Fields {
            alloc,
            arguments,
            range: range_of(required, limit),
            mode: arguments.get_one::<i32>("mode"),
            is_person: false,
        })
    }

    /// Reads the fields in the arguments of a command for people, in which sizes have units and access modes
    /// have names.
    ///
    /// # Errors
    ///
    /// If a value is not a size or not an access mode.
    pub(crate) fn of_person(
        alloc: Global,
        arguments: &'m ArgMatches<'a>,
    ) -> Result<Fields<'m, 'a>, Failure> {
        let required = size(arguments, "size")?;
        let limit = size(arguments, "limit")?;
        let mode = mode(arguments)?;
        Ok(Fields {
            alloc,
            arguments,
            range: range_of(required, limit),
            mode: Some(mode),
            is_person: true,
        })
    }

    /// Returns the text of an option, or an empty text if the option is not given. Fails if memory is
    /// refused.
    pub(crate) fn text(&self, name: &str) -> Result<Text, FieldFault> {
        Ok(Text::from_str(self.alloc, self.arguments.get_str(name).unwrap_or(""))?)
    }

    /// Returns true if `--readonly` is given.
    pub(crate) fn readonly(&self) -> bool {
        self.arguments.get_flag("readonly")
    }

    /// Returns the greatest number of entries of a page, from `--max`. Without the option returns 0, which
    /// leaves the number to the server.
    pub(crate) fn max(&self) -> i32 {
        self.arguments.get_one::<i32>("max").unwrap_or(0)
    }

    /// Returns the range of sizes in bytes, in which a bound that is not given is 0. Returns `None` if
    /// neither bound is given.
    pub(crate) fn range(&self) -> Option<CapacityRange> {
        self.range
    }

    // Returns a mount with the file system in `--fs`, or a block device without the option.
    fn access(&self) -> Result<Access, FieldFault> {
        let Some(fs) = self.arguments.get_str("fs") else {
            return Ok(Access::Block);
        };
        let mount = Mount {
            fs_type: Text::from_str(self.alloc, fs)?,
            flags: Items::new(self.alloc),
            group: Text::new(self.alloc),
        };
        Ok(Access::Mount(Boxed::new(self.alloc, mount)?))
    }

    /// Returns the capability that the options describe: its mode is in `--mode`, and it is a mount of the
    /// file system in `--fs`, or a block device without `--fs`. A command for people without `--mode` has the
    /// mode SINGLE_NODE_WRITER. In any other command, returns `None` without `--mode`. Fails if memory is
    /// refused.
    pub(crate) fn capability(&self) -> Result<Option<Capability>, FieldFault> {
        let Some(mode) = self.mode else {
            return Ok(None);
        };
        Ok(Some(Capability {
            access: self.access()?,
            mode: Some(mode),
        }))
    }

    /// Returns a list of the capability that [`Fields::capability`] returns, or an empty list if it returns
    /// `None`. Fails if memory is refused.
    pub(crate) fn capabilities(&self) -> Result<Items<Capability>, FieldFault> {
        list_of(self.alloc, self.capability()?)
    }

    // Adds a pair to a map. The first `=` of the pair ends its key.
    fn insert_pair(&self, map: &mut Map, pair: &str) -> Result<(), FieldFault> {
        let (key, value) = pair.split_once('=').ok_or(FieldFault::NotPair)?;
        let key = Text::from_str(self.alloc, key)?;
        let value = Text::from_str(self.alloc, value)?;
        Ok(map.insert(key, value)?)
    }

    // Adds pairs that are separated by commas to a map. If two pairs have the same key, the last one counts.
    fn insert_pairs(&self, map: &mut Map, text: &str) -> Result<(), FieldFault> {
        for pair in text.split(',') {
            self.insert_pair(map, pair)?;
        }
        Ok(())
    }

    /// Returns the pairs of an option, or `None` if the option is not given. Commas separate the pairs, and
    /// the first `=` of a pair ends its key. If two pairs have the same key, the last one counts.
    ///
    /// # Errors
    ///
    /// [`FieldFault::NotPair`] if a pair has no `=`, also for an empty text, or [`FieldFault::NoMemory`] if
    /// memory is refused.
    pub(crate) fn pairs(&self, name: &str) -> Result<Option<Map>, FieldFault> {
        let Some(text) = self.arguments.get_str(name) else {
            return Ok(None);
        };
        let mut map = Map::new(self.alloc);
        self.insert_pairs(&mut map, text)?;
        Ok(Some(map))
    }

    /// Returns the pairs of an option as [`Fields::pairs`] does, or an empty map if the option is not given.
    pub(crate) fn map(&self, name: &str) -> Result<Map, FieldFault> {
        let mut map = Map::new(self.alloc);
        if let Some(text) = self.arguments.get_str(name) {
            self.insert_pairs(&mut map, text)?;
        }
        Ok(map)
    }

    /// Returns a requirement with one requisite topology and no preferred topology. The option
    /// `--pool-topology` gives the topology in a command for people, and `--topology` in any other command.
    /// Returns `None` if the option is not given.
    pub(crate) fn requirement(&self) -> Result<Option<Requirement>, FieldFault> {
        let option = if self.is_person {
            "pool-topology"
        } else {
            "topology"
        };
        let Some(segments) = self.pairs(option)? else {
            return Ok(None);
        };
        Ok(Some(Requirement {
            requisite: list_of(self.alloc, Some(segments))?,
            preferred: Items::new(self.alloc),
        }))
    }

    /// Returns an empty map, for secrets and contexts, which `csictl` does not send.
    pub(crate) fn no_map(&self) -> Map {
        Map::new(self.alloc)
    }
}
