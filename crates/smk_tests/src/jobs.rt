//! The jobs of a list in groups: how many run at once, and which begin.

use smk_compose::RunFault;
use smk_jobs::each_or_first;
use std::sync::atomic::{AtomicU64, Ordering};
use std::test::Fail;
use std::thread;

// What jobs tell of themselves: how many have begun, how many run, and how many ran among other jobs than those of their group.
#[derive(Drop)]
struct Seen {
    begun: AtomicU64,
    running: AtomicU64,
    amiss: AtomicU64,
}

impl Seen {
    // A job of a group of three at most, at whose end so many have begun. It waits until they have, for so many turns at most. Those with this end have a fault.
    fn job(&self, end: u32, faulty: u32) -> Result<u32, RunFault> {
        let beside = self.running.fetch_add(1, Ordering::SeqCst);
        self.begun.fetch_add(1, Ordering::SeqCst);
        for _ in 0..1_073_741_824u64 {
            if u64::from(end) <= self.begun.load(Ordering::SeqCst) {
                break;
            }
            thread::yield_now();
        }
        if 3 <= beside || self.begun.load(Ordering::SeqCst) != u64::from(end) {
            self.amiss.fetch_add(1, Ordering::SeqCst);
        }
        self.running.fetch_sub(1, Ordering::SeqCst);
        if end == faulty {
            Err(RunFault::Rows { node: end })
        } else {
            Ok(end)
        }
    }
}

// Seven jobs, at most three at once: three begin, and once they are done three more, and then the last. It begins only if none before it has a fault.
#[test]
fn jobs_run_at_once_in_groups_and_none_begins_after_a_fault(rt: HostRuntime) -> Result<(), Fail> {
    let ends = [3u32, 3, 3, 6, 6, 6, 7];
    for (faulty, all) in [(0u32, 7u64), (3, 3), (6, 6), (7, 7)].as_slice() {
        let seen = Seen {
            begun: AtomicU64::new(0),
            running: AtomicU64::new(0),
            amiss: AtomicU64::new(0),
        };
        let jobs = Vec::from_slice(rt.alloc(), ends.as_slice())?;
        let made = each_or_first(&rt, rt.alloc(), 3, jobs, &|end: u32| seen.job(end, *faulty));
        match made {
            Ok(made) => assert_eq!(rt; (*faulty, made.as_slice()), (0, ends.as_slice())),
            Err(RunFault::Rows { node }) => assert_eq!(rt; node, *faulty),
            Err(_) => return Err(Fail::new("no memory")),
        }
        assert_eq!(rt; seen.begun.load(Ordering::SeqCst), *all);
        assert_eq!(rt; seen.amiss.load(Ordering::SeqCst), 0);
    }
    Ok(())
}
