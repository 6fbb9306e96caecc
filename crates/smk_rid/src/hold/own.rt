ghost use Rattle.std.specs.Prelude.{◌≡◌, ◌↔◌, length, IsTrue};
ghost use Rattle.smk_base.specs.Places.{own_lists};

use crate::map::RidMap;

impl RidMap {
    /// Whether each place has itself alone, so that what it is composed with stays.
    pub fn is_identity(&self) -> bool
        ensures { IsTrue result ↔ (self.now ≡ own_lists (length self.now.lists)) }
    {
        if self.bound() != self.len() {
            return false;
        }
        match self.array() {
            Some(lists) => lists.has_own(),
            None => false,
        }
    }
}
