ghost use Rattle.smk_outside.specs.Conversing.{SaysAll};

/// What a conversation says, put together, is its opening and then the texts of its turns in order.
#[tactic(auto, using(crate::proofs::Said::says_all))]
pub fn says_all<S, T>()
    ensures { SaysAll S T }
{}
