//! Books and lines of scripts, as they are written and as they are checked.

pub(crate) mod catalog;
pub(crate) mod col_decl;
pub(crate) mod limits;
pub(crate) mod need;
pub(crate) mod plan;
pub(crate) mod token;
pub(crate) mod tree;
pub(crate) mod type_fault;
