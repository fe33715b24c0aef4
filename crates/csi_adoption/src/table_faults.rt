//! Finds the first fault of the tables, in the order of the constraints.

ghost use Rattle.csi_adoption.specs.Faults.{Says, Reports, code_faults, count_fault, count_faults, kinds_faults, table_faults};
ghost use Rattle.csi_adoption.specs.Seen.{reported_attachments, reported_volumes};

use crate::attachment_faults::{check_attachment, check_nodes};
use crate::fault::{AdoptFault, Foreign};
use crate::seen::{AttachmentsSeen, VolumesSeen};
use crate::volume_faults::{check_numbers, check_sizes, check_volume};
use csi_config::Config;
use csi_constraints::{AttachmentConstraint, BrokenConstraint, RowName, VolumeConstraint};
use csi_types::MAX_VOLUMES;
use std::alloc::Global;

fn check_kinds(volumes: &VolumesSeen, attachments: &AttachmentsSeen) -> Result<(), AdoptFault>
    ensures { Reports (kinds_faults (reported_volumes volumes.now) (reported_attachments attachments.now))
        result }
{
    if let Some(name) = &volumes.kinds {
        let number = name.number.unwrap_or(0);
        return Err(AdoptFault::Foreign(Foreign::Volume { number }));
    }
    if let Some(name) = &attachments.kinds {
        let rowid = name.number.unwrap_or(0);
        return Err(AdoptFault::Foreign(Foreign::Attachment { rowid }));
    }
    Ok(())
}

fn check_codes(
    alloc: Global,
    volumes: &VolumesSeen,
    attachments: &AttachmentsSeen,
) -> Result<(), AdoptFault>
    ensures { Says (code_faults (reported_volumes volumes.now) (reported_attachments attachments.now))
        result }
{
    check_volume(&volumes.caps, VolumeConstraint::Caps)?;
    check_volume(&volumes.params, VolumeConstraint::Params)?;
    check_attachment(alloc, &attachments.cap, AttachmentConstraint::Cap)?;
    check_attachment(alloc, &attachments.readonly, AttachmentConstraint::Readonly)?;
    check_attachment(alloc, &attachments.node, AttachmentConstraint::Node)
}

/// Checks the results of the scans that read only one table. `next` is the next number in the table `meta`,
/// or 0 if this number is out of range.
///
/// # Errors
///
/// Returns the first fault, or [`AdoptFault::NoMemory`].
pub(crate) fn check_tables(
    alloc: Global,
    config: &Config,
    next: u64,
    volumes: &VolumesSeen,
    attachments: &AttachmentsSeen,
) -> Result<(), AdoptFault>
    ensures { Says (table_faults config.now next (reported_volumes volumes.now)
        (reported_attachments attachments.now)) result }
{
    check_kinds(volumes, attachments)?;
    check_numbers(next, volumes)?;
    check_sizes(alloc, config, volumes)?;
    check_codes(alloc, volumes, attachments)
}

fn check_count(rows: u64) -> Result<(), AdoptFault>
    ensures { Reports (count_fault rows) result }
{
    if rows > MAX_VOLUMES {
        return Err(AdoptFault::Broken(BrokenConstraint::TooManyVolumes));
    }
    Ok(())
}

/// Checks that all attachments of a volume can coexist, and checks the count of each node's attachments and
/// the count of all volumes. `apart` names the first attachment that cannot coexist with an earlier
/// attachment of its volume, or is `None`.
///
/// # Errors
///
/// Returns the first fault, or [`AdoptFault::NoMemory`].
pub(crate) fn check_counts(
    alloc: Global,
    config: &Config,
    apart: &Option<RowName>,
    attachments: &AttachmentsSeen,
    volumes: &VolumesSeen,
) -> Result<(), AdoptFault>
    ensures { Says (count_faults config.now apart.now (reported_attachments attachments.now)
        (reported_volumes volumes.now)) result }
{
    check_attachment(alloc, apart, AttachmentConstraint::Coexist)?;
    check_nodes(alloc, config.nodes(), attachments.node_volumes.as_slice())?;
    check_count(volumes.rows)
}
