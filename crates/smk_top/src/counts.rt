/// How many lines have a reply, how many of these replies are refusals, how many lines aren't in the grammar, and how many bytes the texts have.
#[derive(Clone, Copy, Drop)]
pub struct Counts {
    pub replies: u64,
    pub refused: u64,
    pub unread: u64,
    pub bytes: u64,
}
