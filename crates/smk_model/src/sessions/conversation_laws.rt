//! Laws of conversations. Each is an empty function whose contract is the law.

ghost use Rattle.smk_model.specs.ConversationLaws.{TalksAsReported, OneTalkStart, SomeTalkStart};

/// What a conversation says is, but for its empty lines, what a run writes.
#[tactic(auto, using(crate::proofs::Conversation::talks_as_reported))]
pub fn talks_as_reported()
    ensures { TalksAsReported }
{}

/// Words and files have one start of a conversation, and its workbook is that of a run over the same book.
#[tactic(auto, using(crate::proofs::TalkStarts::one_talk_start))]
pub fn one_talk_start()
    ensures { OneTalkStart }
{}

/// Words and files have a start of a conversation.
#[tactic(auto, using(crate::proofs::TalkStarts::some_talk_start))]
pub fn some_talk_start()
    ensures { SomeTalkStart }
{}
