use crate::lent::Lent;
use smk_base::BrushOn;

// A refresh of views: what the session holds, the brushes that come into force, the table of the one that is set or ended, and whether the marks of the views are wanted.
#[derive(Drop)]
pub(crate) struct Refresh<'a> {
    pub(crate) held: &'a Lent<'a>,
    pub(crate) brushes: &'a [BrushOn],
    pub(crate) table: u32,
    pub(crate) marked: bool,
}
