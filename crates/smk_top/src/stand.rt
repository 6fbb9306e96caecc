use smk_base::Names;
use smk_session::Session;

/// The state between two lines of a script or of a conversation: the session that answers the next one, the names of its book's dependencies, and how many lines came before it.
#[derive(Drop)]
pub struct Stand<'a> {
    pub session: Session,
    pub fds: &'a Names,
    pub before: u64,
}
