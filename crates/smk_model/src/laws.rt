//! All laws, by name.

pub use crate::plans::class_laws::{bulk, classes_are};
pub use crate::plans::composed_laws::{
    backs_compose, forwards_compose, leaves_split, lists_stand, merged_has_both,
};
pub use crate::plans::direction_laws::{inverses, pairs_forward};
pub use crate::plans::fault_laws::{first_of_all, nothing_asked};
pub use crate::plans::growth_laws::{
    chain_grows, group_grows, groups_regroup, growing_is_thin, growing_never_full, unscanned_stays,
};
pub use crate::plans::lineage_laws::{
    answers_are_places, bin_is_floor, cui_widom, places_ascend, rows_agree, selection_lineage,
    step_by_step,
};
pub use crate::plans::local_laws::{adds_no_rows, cut, lineage_of_ways, locals_are};
pub use crate::runs::example_laws::{
    plan_holds, readme_holds, strings_hold, tables_hold, words_hold,
};
pub use crate::runs::grammar_laws::{
    faultless_asks_keep_limits, faultless_have_trees, faultless_keep_limits, faults_stay,
    one_any_line, one_book, one_line, texts_are_read, unexpected_leaves,
};
pub use crate::runs::outcome_laws::{
    faultless_texts_spell, one_inputs, one_outcome, one_reading, some_outcome, some_reading,
};
pub use crate::runs::token_laws::strings_are_longest;
pub use crate::sessions::append_laws::{appends_begin_anew, appends_fit, refused_appends_stay};
pub use crate::sessions::ask_laws::{
    asked_backs_fit, asks_fit, chains_add_no_rows, chains_are_small,
};
pub use crate::sessions::conversation_laws::{one_talk_start, some_talk_start, talks_as_reported};
pub use crate::sessions::expanded_laws::expanded_stands;
pub use crate::sessions::fd_laws::{dependencies_answered, fd_law, profiles_fit};
pub use crate::sessions::own_laws::{
    all_are_selected, now_is_plain, own_lines_are_read, own_lines_stay, whole_part_is_plain,
};
pub use crate::sessions::reply_laws::{first_contents, marks_stay, refused_stay, replies_fit};
