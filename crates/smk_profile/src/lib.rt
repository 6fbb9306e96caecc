//! What violates a functional dependency of a book: the answer to an `fd` line, by the rows of its view's marks, and the text of it. The book with the views that show its dependencies is that of `expand`.
#![tactic(auto)]

mod brief;
mod marks;
mod profiling;
mod said;

pub use brief::{BriefProfile, brief_profile_text, profile_briefly};
pub use profiling::profile;
pub use said::profile_text;
pub use smk_expand::{Expanded, expand};
