//! Laws of plans: their rows and their lineage.

pub mod class_laws;
pub mod composed_laws;
pub mod direction_laws;
pub mod fault_laws;
pub mod growth_laws;
pub mod lineage_laws;
pub mod local_laws;
