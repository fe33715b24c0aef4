//! The range of sizes that a request asks for.

/// The range of sizes that a request allows, in bytes: `CapacityRange` (CSI specification, 'CreateVolume').
///
/// Fields: `required_bytes` 1, `limit_bytes` 2. The number 0 sets no bound. The argument checks refuse a
/// negative number.
#[derive(Clone, Copy, Debug)]
pub struct CapacityRange {
    /// The least size of the volume in bytes, or 0 for no bound.
    pub required: i64,
    /// The greatest size of the volume in bytes, or 0 for no bound.
    pub limit: i64,
}
