// One call for each job of a list, some of them at once.
ghost use Rattle.std.specs.{Prelude.{◌≡◌, ◌<◌, ◌≤◌, ◌++◌, ◌∷◌, [], ◌⊎◌, Ok, All, IfOk, IfErr, OnOk, alloc_error, List, length}, List.AllZip};
ghost use Rattle.smk_jobs.specs.Jobs.{FirstFault};

use std::alloc::{AllocError, Global};
use std::marker::{Send, Sync};
use std::mem;
use std::thread::{Threads, map_vec};

// Puts one last.
fn put<T: Drop>(all: &mut Vec<T>, one: T) -> Result<(), AllocError>
    ensures { OnOk result (all.new.items ≡ all.old.items ++ one ∷ []) }
{
    all.push(one)?;
    Ok(())
}

// Puts the values last, or gives the first fault among them.
fn put_all<T: Drop, E: From<AllocError> + Drop>(
    all: &mut Vec<T>,
    results: Vec<Result<T, E>>,
) -> Result<(), E>
    ensures all { IfOk result (λ _. (ones : List T) × AllZip (λ r one. r ≡ Ok one) results.items ones × (all.new.items ≡ all.old.items ++ ones)) }
    ensures first { IfErr result (λ e. FirstFault (λ r s. r ≡ s) results.items e ⊎ E.from_gives alloc_error e) }
{
    for result in results {
        match result {
            Ok(one) => put(all, one)?,
            Err(fault) => return Err(fault),
        }
    }
    Ok(())
}

// The next jobs, at most so many. The others stay.
fn next_group<J: Drop>(rest: &mut Vec<J>, most: u32) -> Result<Vec<J>, AllocError>
    requires { 0 < most }
    ensures jobs { IfOk result (λ group. group.items ++ rest.new.items ≡ rest.old.items) }
    ensures few { IfOk result (λ group. length group.items ≤ most) }
    ensures fewer { OnOk result (0 < length rest.old.items → length rest.new.items < length rest.old.items) }
{
    let later = rest.split_off(rest.len().min(most as usize))?;
    Ok(mem::replace(rest, later))
}

// Does the jobs of one group, all at once, and puts their values last, or gives their first fault.
fn add_group<
    R: Threads + Sync,
    J: Send + Drop,
    T: Send + Drop,
    E: From<AllocError> + Send + Drop,
    F: Fn(J) -> Result<T, E> + Sync,
>(rt: &R, all: &mut Vec<T>, group: Vec<J>, f: &F) -> Result<(), E>
    requires { All (F.pre f.now) group.items }
    ensures all { IfOk result (λ _. (ones : List T) × AllZip (λ job one. F.post f.now job (Ok one)) group.items ones × (all.new.items ≡ all.old.items ++ ones)) }
    ensures first { IfErr result (λ e. FirstFault (F.post f.now) group.items e ⊎ E.from_gives alloc_error e) }
{
    let results = map_vec(rt, group, f)?;
    put_all(all, results)
}

/// All the jobs that wait, if they are `most` or more, and else none. The others go on waiting.
pub fn due<J: Drop>(alloc: Global, most: u32, waiting: &mut Vec<J>) -> Vec<J>
    ensures jobs { result.items ++ waiting.new.items ≡ waiting.old.items }
    ensures none { length waiting.old.items < most → result.items ≡ [] }
    ensures all { most ≤ length waiting.old.items → waiting.new.items ≡ [] }
{
    if waiting.len() < most as usize {
        Vec::new(alloc)
    } else {
        mem::replace(waiting, Vec::new(alloc))
    }
}

/// Does each job by a call of `f`: the values in the jobs' order, or the first fault in that order, or the fault for a lack of memory.
///
/// Its clauses say that and no more. When the jobs run is tested and not proved: they are cut into groups of `most`, the last of what is left. The jobs of a group may run at once, each in a thread of its own; a job that is alone in its group runs in this thread. A group is done to its end, and none begins after one with a fault.
pub fn each_or_first<
    R: Threads + Sync,
    J: Send + Drop,
    T: Send + Drop,
    E: From<AllocError> + Send + Drop,
    F: Fn(J) -> Result<T, E> + Sync,
>(rt: &R, alloc: Global, most: u32, jobs: Vec<J>, f: &F) -> Result<Vec<T>, E>
    requires some { 0 < most }
    requires jobs { All (F.pre f.now) jobs.items }
    ensures all { IfOk result (λ made. AllZip (λ job one. F.post f.now job (Ok one)) jobs.items made.items) }
    ensures first { IfErr result (λ e. FirstFault (F.post f.now) jobs.items e ⊎ E.from_gives alloc_error e) }
{
    let mut all = Vec::with_capacity(alloc, jobs.len())?;
    let mut rest = jobs;
    while !rest.is_empty() {
        let group = next_group(&mut rest, most)?;
        add_group(rt, &mut all, group, f)?;
    }
    Ok(all)
}
