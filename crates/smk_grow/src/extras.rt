// What declarations ask for besides the rows, over a table that has grown.
ghost use Rattle.std.specs.{Prelude.{◌≡◌, ◌≤◌, ◌+◌, ◌++◌, ◌∷◌, [], List, IfOk, OnOk}, List.{filter_map, sum_by}, Option.option_to_list};
ghost use Rattle.smk_session.specs.Making.{IsOpened, book_in, looks_wanted, split_wanted, cubes_wanted};
ghost use Rattle.smk_grow.specs.Renewed.{if_depends, split_again, cubes_again};

use smk_base::BackExtra;
use smk_jobs::Work;
use smk_outside::{Gate, Steps};
use smk_push::Cubes;
use smk_session::{Extras, Opening, Workers, make_extras, wants};
use smk_skip::Split;
use std::alloc::{AllocError, Global};
use std::collections::VecDeque;
use std::sync::ledger::Ledger;
use std::thread::Threads;

// What takes the places of splits and of groupings.
#[derive(Drop)]
pub(crate) struct FreshExtras {
    pub(crate) splits: Vec<Option<Split>>,
    pub(crate) cubes: Vec<Option<Cubes>>,
}

// Puts last the next of what was made, or none where nothing was wanted.
fn put_next<T: Drop>(
    fresh: &mut Vec<Option<T>>,
    rest: &mut VecDeque<T>,
    wanted: bool,
) -> Result<(), AllocError>
    ensures put { OnOk result ((one : T) (more : List T) → rest.old.items ≡ option_to_list (if_depends wanted one) ++ more → fresh.new.items ≡ fresh.old.items ++ if_depends wanted one ∷ []) }
    ensures rest { OnOk result ((one : T) (more : List T) → rest.old.items ≡ option_to_list (if_depends wanted one) ++ more → rest.new.items ≡ more) }
{
    let next = if wanted { rest.pop_front() } else { None };
    fresh.push(next)?;
    Ok(())
}

// What was made for the declarations that depend on the table, each at the place of its declaration.
fn spread(alloc: Global, opening: &Opening<'_>, made: Extras) -> Result<FreshExtras, AllocError>
    requires splits { made.splits.items ≡ filter_map (split_wanted (book_in opening.now) opening.now.grown) opening.now.book.now.backs }
    requires cubes { made.cubes.items ≡ filter_map (cubes_wanted (book_in opening.now) opening.now.grown) opening.now.book.now.backs }
    ensures splits { IfOk result (λ all. all.splits.items ≡ filter_map (split_again opening.now.grown (book_in opening.now)) opening.now.book.now.backs) }
    ensures cubes { IfOk result (λ all. all.cubes.items ≡ filter_map (cubes_again opening.now.grown (book_in opening.now)) opening.now.book.now.backs) }
{
    let mut splits = VecDeque::from_vec(made.splits);
    let mut cubes = VecDeque::from_vec(made.cubes);
    let mut extras = FreshExtras {
        splits: Vec::new(alloc),
        cubes: Vec::new(alloc),
    };
    for declared in opening.book.catalog().backs.as_slice() {
        let wanted = wants(opening, declared);
        match &declared.extra {
            BackExtra::Plain => {}
            BackExtra::By(_) => put_next(&mut extras.splits, &mut splits, wanted)?,
            BackExtra::Grouped { .. } => put_next(&mut extras.cubes, &mut cubes, wanted)?,
        }
    }
    Ok(extras)
}

// What takes the places of all splits and groupings, in the order of their declarations.
pub(crate) fn fresh_extras<R: Threads + Sync, G: Gate + Sync, L: Ledger>(
    work: &Work<'_, R, Workers<'_, G>>,
    opening: &Opening<'_>,
    steps: &mut Steps<L>,
) -> Result<FreshExtras, AllocError>
    requires opened { IsOpened opening.now }
    ensures splits { IfOk result (λ made. made.splits.items ≡ filter_map (split_again opening.now.grown (book_in opening.now)) opening.now.book.now.backs) }
    ensures cubes { IfOk result (λ made. made.cubes.items ≡ filter_map (cubes_again opening.now.grown (book_in opening.now)) opening.now.book.now.backs) }
    ensures looks { steps.new ≤ steps.old + sum_by (looks_wanted (book_in opening.now) opening.now.grown) opening.now.book.now.backs }
{
    let made = make_extras(work.rt, work.alloc, work.crew.workers, opening, steps)?;
    spread(work.alloc, opening, made)
}
