//! The formats of the tables. The table `meta` has the number of the format.

/// The first format of the tables. In it, the column `params` of a volume has its parameters alone, without
/// mutable parameters.
pub const FIRST_FORMAT: u32 = 1;

/// The format of new tables, in which the `params` of a volume contain its parameters and its mutable
/// parameters.
pub const LATEST_FORMAT: u32 = 2;
