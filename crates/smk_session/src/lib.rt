//! Sessions: the views of a book over its tables, with the lineage that its declared queries need, and the answers to the lines of a script.
#![tactic(auto)]

mod answer;
mod brush;
mod laws;
mod lent;
mod parts;
mod session;
mod start;
mod turn;

pub use answer::has_refused;
pub use answer::no_answer::Turned;
pub use answer::rows_behind::RowsBehind;
pub use laws::nothing_kept;
pub use parts::Parts;
pub use session::Session;
pub use smk_base::BrushOn;
pub use start::extras::Extras;
pub use start::fault::StartFault;
pub use start::making::{Opening, make_extras, view_now, wants};
pub use start::mode::Mode;
pub use start::opening::{Opened, open_view, view_of};
pub use start::scans::view_scans;
pub use start::workers::Workers;
pub use turn::Turn;
