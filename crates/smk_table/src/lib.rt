//! Tables read from CSV, counted looks at their rows, and steps over the columns that they name, so that no other column is gathered.
#![tactic(auto)]

mod among;
mod chosen;
mod csv_reader;
mod cutting;
mod fields;
mod joining;
mod pieces;
mod records;
mod table;
mod wanted;

pub use chosen::Chosen;
pub use pieces::read_table_in_pieces;
pub use records::read_table;
pub use smk_base::TableFault;
pub use table::Table;
pub use wanted::{NarrowedOne, NarrowedTwo, narrow_one, narrow_two};
