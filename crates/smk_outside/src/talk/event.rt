use smk_base::Text;

/// What can happen at an object with two ends.
#[derive(Drop)]
pub enum Event {
    /// This line came.
    Heard(Text),
    /// No line comes any more.
    End,
    /// These bytes were said.
    Said(Text),
}
