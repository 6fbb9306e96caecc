/// When a step's lineage is made: while the step runs, or once it has run.
#[derive(Drop, Clone, Copy)]
pub enum Mode {
    /// The lists are filled while the step runs.
    Inject,
    /// A step keeps its inputs, and its lists are made from them when the step is done.
    Defer,
}
