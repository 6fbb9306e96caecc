ghost use Rattle.std.specs.Prelude.{◌≡◌, ◌<◌, length, set, All};
ghost use Rattle.smk_session.specs.Answers.{placed};

use smk_base::{BrushOn, ListOf, Rel, Reply};

/// The answer to a line; how many rids its brush selects, if it makes one; and what it changes: the brushes and contents that replace the old ones, if it changes them.
#[derive(Drop)]
pub struct Turn {
    /// The reply to the line.
    pub reply: Reply,
    /// The number of the rids of the brush, even if the reply is without them.
    pub count: u32,
    pub(crate) change: Option<Change>,
}

// The brushes in force after a line, and what is kept then of the views that it concerns.
#[derive(Drop)]
pub(crate) struct Change {
    pub(crate) brushes: Brushes,
    pub(crate) contents: Contents,
}

// What is kept of a view besides its first content.
#[derive(Drop)]
pub(crate) struct Content {
    pub(crate) view: u32,
    pub(crate) rel: Option<Rel>,
}

// Brushes in force.
pub(crate) type Brushes = ListOf<BrushOn>;

// What is kept of some views.
pub(crate) type Contents = ListOf<Content>;

// Puts a content in place of that of its view.
fn put(contents: &mut [Option<Rel>], content: Content)
    requires { content.view < length contents.old }
    ensures { contents.new ≡ set contents.old content.view content.rel }
{
    let Content { view, rel } = content;
    contents[view as usize] = rel;
}

// Puts contents in place of those of their views.
pub(crate) fn place(contents: &mut [Option<Rel>], fresh: Contents)
    requires { All (λ content. content.view < length contents.old) fresh }
    ensures { contents.new ≡ placed fresh contents.old }
{
    let mut rest = fresh.into_vec();
    while let Some(content) = rest.pop() {
        put(contents, content);
    }
}
