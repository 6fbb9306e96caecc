//! Laws of composed lineage. Each is an empty function whose contract is the law.

ghost use Rattle.smk_model.specs.ComposedLaws.{BacksCompose, ForwardsCompose, LeavesSplit, ListsStand, MergedHasBoth};

/// The backward lists of a plan over whole tables are a step's own lists composed with the lists of its inputs, node by node.
pub fn backs_compose()
    ensures { BacksCompose }
{}

/// The forward lists of a plan over whole tables are the lists of its inputs composed with a step's own lists inverted, node by node.
pub fn forwards_compose()
    ensures { ForwardsCompose }
{}

/// The lists of a plan give the backward and forward meaning of one place and of several, each direction is the other inverted, and their members are the pairs.
pub fn lists_stand()
    ensures { ListsStand }
{}

/// The rows of a plan of two inputs come from the lists of the left input's leaves and then from those of the right input's.
pub fn leaves_split()
    ensures { LeavesSplit }
{}

/// Merged lists have at least the members of each side.
pub fn merged_has_both()
    ensures { MergedHasBoth }
{}
