//! Tests of what only a call can show, over all crates: calls that no run of the program reaches, what runs beside each other, calls that are counted, and the
//! adapters. What a run can show is a case of the crate `cases`.
#![tactic(auto)]

#[cfg(test)]
mod adapters;
#[cfg(test)]
mod bodies;
#[cfg(test)]
mod contents;
#[cfg(test)]
mod jobs;
#[cfg(test)]
mod joined;
#[cfg(test)]
mod meetings;
#[cfg(test)]
mod opened;
#[cfg(test)]
mod rids;
#[cfg(test)]
mod runs;
#[cfg(test)]
mod shop;
#[cfg(test)]
mod tables;
#[cfg(test)]
mod texts;
