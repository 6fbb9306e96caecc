use smk_push::Cubes;
use smk_skip::Split;

/// What is kept for the declarations that ask for more than rows, each in their order: a split for each column, and the groups of each grouping.
#[derive(Drop)]
pub struct Extras {
    pub splits: Vec<Split>,
    pub cubes: Vec<Cubes>,
}
