// A gate that fixes what comes first.
use srs_session::Gate;
use std::sync::Wait;
use std::sync::atomic::{AtomicU64, Ordering};
use std::thread;

// It holds the worker that drew the number `held` until another comes with a number from 2 on, and
// so has committed what it drew before.
#[derive(Drop)]
pub struct Holding {
    held: u64,
    passed: AtomicU64,
}

impl Holding {
    pub fn of(held: u64) -> Holding {
        Holding {
            held,
            passed: AtomicU64::new(0),
        }
    }
}

impl Gate for Holding {
    fn turn<R: Wait>(&self, rt: &R, _who: u32, piece: u64) {
        if piece >= 2 {
            self.passed.store(1, Ordering::SeqCst);
        }
        if piece == self.held {
            wait_for(rt, &self.passed);
        }
    }
}

// Returns once the word is no longer 0.
fn wait_for<R: Wait>(rt: &R, word: &AtomicU64) {
    for _ in rt.forever() {
        if word.load(Ordering::SeqCst) > 0 {
            break;
        }
        thread::yield_now();
    }
}
