//! What is read before a session begins: words, files, the book and its tables, and the script of a run; and the files of lines that append.
#![tactic(auto)]

mod adding;
mod called;
mod collecting;
mod demo_texts;
mod engine;
mod files;
mod inputs;
mod loading;
mod opening;
mod script;
mod settings;
mod stop;
mod words;

pub use adding::bring;
pub use called::{Flights, RunTexts, RunWords, TalkWords};
pub use collecting::{read_all, read_demo};
pub use demo_texts::DemoTexts;
pub use engine::Engine;
pub use inputs::Inputs;
pub use script::{Reading, reading_of};
pub use settings::Settings;
pub use stop::Stop;
pub use words::{read_talk_words, read_words, text_of};
