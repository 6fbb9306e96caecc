//! The texts that Smoke writes. Rows are written by `csv`, numbers by `itoa`.
#![tactic(auto)]

mod answers;
mod faults;
mod lines;
mod linked;
mod lookup;
mod names;
mod page;
mod pieces;
mod refusals;
mod replies;
mod schema;
mod texts;

pub use faults::{fault_text, type_words};
pub use lines::{add_line_around, line_around, line_of, pair_text};
pub use lookup::{table_named, view_at, view_named};
pub use names::shown;
pub use pieces::{reply_text_in_pieces, view_text_in_pieces};
pub use refusals::{
    ask_refusal_text, full_view_text, refusal_text, steps_refusal_text, unknown_table_text,
};
pub use replies::{brief_text, reply_text};
pub use schema::schema_text;
pub use texts::{
    bad_line_text, no_memory_text, view_text, with_numbered_part, with_numbered_rows,
    with_placed_rows, with_rows, with_table_header,
};
