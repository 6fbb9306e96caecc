/// How many tables a book may have.
pub const TABLE_LIMIT: u32 = 16;

/// How many views a book may have, those of its dependencies among them.
pub const VIEW_LIMIT: u32 = 64;

/// How many lineage declarations a book may have, those of its dependencies among them.
pub const LINEAGE_LIMIT: u32 = 256;

/// How many links a book may have, and how many views one link may name.
pub const LINK_LIMIT: u32 = 64;

/// How many scans and steps a plan may have, and how many steps an `ask` line.
pub const NODE_LIMIT: u32 = 64;

/// How many comparisons a predicate may have.
pub const COMPARE_LIMIT: u32 = 128;

/// How deep parentheses and `not` may stand in a plan or a predicate.
pub const DEPTH_LIMIT: u32 = 32;

/// How many bytes a name may have.
pub const NAME_LIMIT: u32 = 64;
