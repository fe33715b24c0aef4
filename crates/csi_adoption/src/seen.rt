//! The results of the scans over the tables.

use csi_constraints::{RowName, TextSum};

/// The result of a scan over the rows of volumes, in rising order of their numbers. For each constraint it
/// has the name of the first row that breaks the constraint, or `None` if no row breaks it.
pub(crate) struct VolumesSeen {
    /// The format of the tables, which decides how `params` is checked.
    pub format: u32,
    /// The first row with a value that does not have the type of its column.
    pub kinds: Option<RowName>,
    /// The first row whose number breaks `VolumeConstraint::Number`.
    pub number: Option<RowName>,
    /// The first row whose name breaks `VolumeConstraint::Name`.
    pub name: Option<RowName>,
    /// The first row whose pool breaks `VolumeConstraint::Pool`.
    pub pool: Option<RowName>,
    /// The first row whose size breaks `VolumeConstraint::Bytes`.
    pub bytes: Option<RowName>,
    /// The first row whose capabilities break `VolumeConstraint::Caps`.
    pub caps: Option<RowName>,
    /// The first row whose parameters break `VolumeConstraint::Params`.
    pub params: Option<RowName>,
    /// For each pool in the order of the configuration, the sum of the sizes of its volumes in bytes.
    pub pool_bytes: Vec<TextSum>,
    /// For each pool in the order of the configuration, the number of its volumes.
    pub pool_volumes: Vec<TextSum>,
    /// The number of all rows of volumes, also of rows that break a constraint.
    pub rows: u64,
}

// Written by hand and not derived. So a proof about code that drops the value has one call of `drop`.
impl Drop for VolumesSeen {
    fn drop(self) {
        let VolumesSeen {
            format: _,
            kinds: _kinds,
            number: _number,
            name: _name,
            pool: _pool,
            bytes: _bytes,
            caps: _caps,
            params: _params,
            pool_bytes: _pool_bytes,
            pool_volumes: _pool_volumes,
            rows: _,
        } = self;
    }
}

/// The result of a scan over the rows of attachments, in rising order of their rowids. For each constraint it
/// has the name of the first row that breaks the constraint, or `None` if no row breaks it.
pub(crate) struct AttachmentsSeen {
    /// The first row with a value that does not have the type of its column. The row is named by its rowid.
    pub kinds: Option<RowName>,
    /// The first row whose capability breaks `AttachmentConstraint::Cap`.
    pub cap: Option<RowName>,
    /// The first row whose flag breaks `AttachmentConstraint::Readonly`.
    pub readonly: Option<RowName>,
    /// The first row whose node breaks `AttachmentConstraint::Node`.
    pub node: Option<RowName>,
    /// For each node in the order of the configuration, the number of its attachments.
    pub node_volumes: Vec<TextSum>,
}

impl Drop for AttachmentsSeen {
    fn drop(self) {
        let AttachmentsSeen {
            kinds: _kinds,
            cap: _cap,
            readonly: _readonly,
            node: _node,
            node_volumes: _node_volumes,
        } = self;
    }
}
