//! How the lists of a map are held: in arrays as narrow as their rids, or packed one after the other.

pub(crate) mod array;
mod code;
pub(crate) mod narrow;
mod own;
pub(crate) mod packed;
pub(crate) mod short;
