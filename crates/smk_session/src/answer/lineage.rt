// The lineage that a line asks for.
ghost use Rattle.std.specs.Prelude.{◌≡◌, Ok, MatchResult};
ghost use Rattle.smk_session.specs.{Answers.Turns, Kept.{kept_back, kept_fwd}};

use crate::answer::no_answer::Turned;
use crate::start::kept::{back_kept, fwd_kept};
use smk_base::Refusal;
use smk_compose::Run;
use smk_rid::RidMap;

// The backward lineage to a table. It is kept exactly if the query is declared.
pub(crate) fn back_map(run: &Run, table: usize) -> Result<&RidMap, Turned>
    ensures { MatchResult result (λ map. kept_back run.now.kept table ≡ Ok map.now) (λ turned. Turns turned (kept_back run.now.kept table)) }
{
    match back_kept(run, table) {
        Some(map) => Ok(map),
        None => Err(Turned::Refused(Refusal::Undeclared)),
    }
}

// The forward lineage from a table. It is kept exactly if the query is declared.
pub(crate) fn fwd_map(run: &Run, table: usize) -> Result<&RidMap, Turned>
    ensures { MatchResult result (λ map. kept_fwd run.now.kept table ≡ Ok map.now) (λ turned. Turns turned (kept_fwd run.now.kept table)) }
{
    match fwd_kept(run, table) {
        Some(map) => Ok(map),
        None => Err(Turned::Refused(Refusal::Undeclared)),
    }
}
