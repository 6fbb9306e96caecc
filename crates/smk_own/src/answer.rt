/// The answer to an own line: its text, and whether it is refused.
#[derive(Drop)]
pub struct OwnAnswer {
    pub text: Vec<u8>,
    pub refused: bool,
}
