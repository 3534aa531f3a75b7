//! How a worker waits before it sleeps.

use std::{hint, thread};

// How often a worker that waits looks at once again, and how often it then gives its time slice up between two looks.
const LOOKS: u32 = 100;

const YIELDS: u32 = 16;

// How long a worker that waits goes on without sleep.
#[derive(Drop)]
pub(crate) struct Patience {
    looks: u32,
}

impl Patience {
    pub(crate) const fn new() -> Patience {
        Patience { looks: 0 }
    }

    // Waits a moment. Once it answers false it is time to sleep.
    pub(crate) fn try_wait(&mut self) -> bool {
        if self.looks < LOOKS {
            hint::spin_loop();
        } else if self.looks < LOOKS + YIELDS {
            thread::yield_now();
        } else {
            return false;
        }
        self.looks += 1;
        true
    }
}

// The half of a word by which the kernel tells whether a word that a thread is to sleep on has changed.
pub(crate) fn low_half(word: u64) -> u32 {
    (word % (1 << 32)) as u32
}
