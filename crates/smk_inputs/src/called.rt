// What the words of a run and of a conversation call it for.
ghost use Rattle.std.specs.Prelude.{◌≤◌};

use crate::settings::Settings;
use smk_base::Text;

/// A number of flights that a demo may have.
#[derive(Clone, Copy, Drop)]
pub struct Flights {
    pub count: u32,
    ghost some: { 1 ≤ count },
    ghost few: { count ≤ 200000 },
}

/// Where the texts of a run come from.
#[derive(Drop)]
pub enum RunTexts {
    /// The book's file, and the script's if there is one.
    Files { book: Text, script: Option<Text> },
    /// The demo of so many flights.
    Demo(Flights),
}

/// What the words of a run ask for: how it works, and where its texts come from.
#[derive(Drop)]
pub struct RunWords {
    pub settings: Settings,
    pub texts: RunTexts,
}

/// What the words of a conversation ask for: how it works, where its texts come from (without a script), whether nothing may be appended, and whether the schema is said first in place of all views.
#[derive(Drop)]
pub struct TalkWords {
    pub settings: Settings,
    pub texts: RunTexts,
    pub read_only: bool,
    pub brief: bool,
}
