//! What is rung when there is news, for workers that rest.

use crate::patience::{Patience, low_half};
use std::sync::Wait;
use std::sync::atomic::{AtomicU64, Ordering};

// It is rung when there is news, for those who rest until then.
#[derive(Drop)]
pub(crate) struct Bell {
    rings: AtomicU64,
    asleep: AtomicU64,
}

impl Bell {
    pub(crate) const fn new() -> Bell {
        Bell {
            rings: AtomicU64::new(0),
            asleep: AtomicU64::new(0),
        }
    }

    // How often it was rung.
    pub(crate) fn rings(&self) -> u64 {
        self.rings.load(Ordering::SeqCst)
    }

    // Wakes one of those who sleep here. Who goes to sleep counts itself before the kernel looks at the rings, and who rings
    // counts the ring before it looks at the sleepers: so one of the two sees the other.
    pub(crate) fn ring(&self) {
        self.rings.fetch_add(1, Ordering::SeqCst);
        if self.asleep.load(Ordering::SeqCst) > 0 {
            self.rings.wake_one();
        }
    }

    // Rests until it has been rung more often than `heard`.
    pub(crate) fn rest<R: Wait>(&self, rt: &R, heard: u64) {
        let mut patience = Patience::new();
        for _ in rt.forever() {
            if self.rings() != heard {
                return;
            }
            if !patience.try_wait() {
                self.asleep.fetch_add(1, Ordering::SeqCst);
                self.rings.park(rt, low_half(heard));
                self.asleep.fetch_sub(1, Ordering::SeqCst);
            }
        }
    }
}
