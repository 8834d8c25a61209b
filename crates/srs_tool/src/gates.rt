// Gates that fix a schedule, for the tests of sessions.
use srs_session::Gate;
use std::sync::Wait;
use std::sync::atomic::{AtomicU64, Ordering};
use std::thread;

// So often does one that waits look before it gives the test up.
const LOOKS: u64 = 10_000_000;

// Whether the word comes to the number while one looks, and yields each time.
fn comes_to(word: &AtomicU64, number: u64) -> bool {
    for _ in 0..LOOKS {
        if word.load(Ordering::SeqCst) >= number {
            return true;
        }
        thread::yield_now();
    }
    false
}

/// It lets its first call pass, and after it none until worker 1, worker 2 and session 101 have
/// called.
#[derive(Drop)]
pub(crate) struct Meeting {
    begun: AtomicU64,
    one: AtomicU64,
    two: AtomicU64,
    session: AtomicU64,
    missed: AtomicU64,
}

impl Meeting {
    pub(crate) fn new() -> Meeting {
        Meeting {
            begun: AtomicU64::new(0),
            one: AtomicU64::new(0),
            two: AtomicU64::new(0),
            session: AtomicU64::new(0),
            missed: AtomicU64::new(0),
        }
    }

    /// Whether all three have met.
    pub(crate) fn held(&self) -> bool {
        self.session.load(Ordering::SeqCst) > 0 && self.missed.load(Ordering::SeqCst) == 0
    }
}

impl Gate for Meeting {
    fn turn<R: Wait>(&self, _rt: &R, who: u32, _piece: u64) {
        if self.begun.swap(1, Ordering::SeqCst) == 0 {
            return;
        }
        match who {
            1 => self.one.store(1, Ordering::SeqCst),
            2 => self.two.store(1, Ordering::SeqCst),
            _ => self.session.store(1, Ordering::SeqCst),
        }
        if !(comes_to(&self.one, 1) && comes_to(&self.two, 1) && comes_to(&self.session, 1)) {
            self.missed.store(1, Ordering::SeqCst);
        }
    }
}

/// Worker 1 and session 101 go in turns: the worker's second call waits until the session has made
/// its second, that one until the worker has made its third, and that one until the session has
/// made its third.
#[derive(Drop)]
pub(crate) struct InTurns {
    worker: AtomicU64,
    session: AtomicU64,
    missed: AtomicU64,
}

impl InTurns {
    pub(crate) fn new() -> InTurns {
        InTurns {
            worker: AtomicU64::new(0),
            session: AtomicU64::new(0),
            missed: AtomicU64::new(0),
        }
    }

    /// Whether each call came that another waited for.
    pub(crate) fn held(&self) -> bool {
        self.session.load(Ordering::SeqCst) >= 3 && self.missed.load(Ordering::SeqCst) == 0
    }

    fn wait(&self, word: &AtomicU64, number: u64) {
        if !comes_to(word, number) {
            self.missed.store(1, Ordering::SeqCst);
        }
    }

    fn worker(&self) {
        match self.worker.fetch_add(1, Ordering::SeqCst) {
            1 => self.wait(&self.session, 2),
            2 => self.wait(&self.session, 3),
            _ => {}
        }
    }

    fn session(&self) {
        if self.session.fetch_add(1, Ordering::SeqCst) == 1 {
            self.wait(&self.worker, 3);
        }
    }
}

impl Gate for InTurns {
    fn turn<R: Wait>(&self, _rt: &R, who: u32, _piece: u64) {
        match who {
            1 => self.worker(),
            101 => self.session(),
            _ => {}
        }
    }
}
