use smk_outside::Gate;
use std::sync::atomic::{AtomicU64, Ordering};
use std::thread;

/// A gate at which pieces 0 and 1 wait for each other, for so many turns at most. It keeps how often each of them came, and how often one has waited in vain.
#[derive(Drop)]
pub struct Meeting {
    first: AtomicU64,
    second: AtomicU64,
    alone: AtomicU64,
}

impl Meeting {
    /// Nobody has come yet.
    pub fn new() -> Meeting {
        Meeting {
            first: AtomicU64::new(0),
            second: AtomicU64::new(0),
            alone: AtomicU64::new(0),
        }
    }

    /// How often each came, and how often one has waited in vain.
    pub fn came(&self) -> [u64; 3] {
        [
            self.first.load(Ordering::SeqCst),
            self.second.load(Ordering::SeqCst),
            self.alone.load(Ordering::SeqCst),
        ]
    }
}

impl Gate for Meeting {
    fn arrive(&self, piece: u32) {
        let (mine, other) = if piece == 0 {
            (&self.first, &self.second)
        } else {
            (&self.second, &self.first)
        };
        let here = mine.fetch_add(1, Ordering::SeqCst);
        for _ in 0..1_073_741_824u64 {
            if here < other.load(Ordering::SeqCst) {
                return;
            }
            thread::yield_now();
        }
        self.alone.fetch_add(1, Ordering::SeqCst);
    }
}
