ghost use Rattle.std.specs.Prelude.{◌≡◌};
ghost use Rattle.smk_typing.specs.Keys.{form_of};

use smk_base::BackExtra;

/// The form of a backward declaration.
#[derive(Clone, Copy, PartialEq, Eq, Hash)]
pub enum Form {
    Plain,
    By(u32),
    Grouped,
}

impl Form {
    /// The form of what a backward declaration asks for.
    pub fn of(extra: &BackExtra) -> Form
        ensures { result ≡ form_of extra.now }
    {
        match extra {
            BackExtra::Plain => Form::Plain,
            BackExtra::By(column) => Form::By(*column),
            BackExtra::Grouped { .. } => Form::Grouped,
        }
    }
}
