//! What Smoke reads from and writes to: files, sinks, conversations, the gate of pieces and the counter of looks.
#![tactic(auto)]

mod files;
mod gate;
mod laws;
mod sink;
mod steps;
mod talk;

pub use files::Files;
pub use files::mem_files::MemFiles;
pub use files::real_files::RealFiles;
pub use gate::{Gate, Idle};
pub use laws::says_all;
pub use sink::mem_sink::MemSink;
pub use sink::stream_sink::{ErrSink, OutSink, StreamSink};
pub use sink::{Failed, Sink};
pub use steps::Steps;
pub use talk::Talk;
pub use talk::ending::Ending;
pub use talk::event::Event;
pub use talk::heard::{Heard, TalkFault};
pub use talk::mem_talk::MemTalk;
pub use talk::stream_talk::StreamTalk;
