//! Monitors, and the lock words in which they are kept.

ghost use Rattle.std.specs.Prelude.{◌≡◌, ◌<◌, ◌^◌};
ghost use Rattle.machine_model.specs.Heap.{entered, exited, is_owned_by, is_owned_by_other};
ghost use Rattle.vm_monitors.specs.Words.{monitor_of, monitor_of_word, word_of, count_of, most_entries};

use jv_types::ThreadNo;

/// How many threads there are at the most. A lock word counts entries in multiples of it.
const MOST_THREADS: u64 = 64;

/// A monitor (JVMS 2.11.10).
#[derive(Clone, Copy, Debug, PartialEq, Eq)]
pub enum Monitor {
    Free,
    /// The thread that owns it, and how often that entered it and didn't leave it.
    Owned(ThreadNo, u64),
}

impl Monitor {
    /// The monitor of a lock word.
    pub fn of(word: u64) -> Monitor
        ensures { monitor_of result ≡ monitor_of_word word }
    {
        let count = word / MOST_THREADS;
        let owner = word % MOST_THREADS;
        if count == 0 {
            Monitor::Free
        } else {
            Monitor::Owned(ThreadNo(owner as u32), count)
        }
    }

    /// Its lock word.
    pub fn word(self) -> u64
        requires { word_of (monitor_of self) < 2 ^ 64 }
        ensures { result ≡ word_of (monitor_of self) }
    {
        match self {
            Monitor::Free => 0,
            Monitor::Owned(owner, count) => count * MOST_THREADS + u64::from(owner.0),
        }
    }

    /// Whether a thread owns it.
    pub fn is_owned_by(self, thread: ThreadNo) -> bool
        ensures { result ≡ is_owned_by thread.0 (monitor_of self) }
    {
        match self {
            Monitor::Free => false,
            Monitor::Owned(owner, _) => owner.0 == thread.0,
        }
    }

    /// Whether another thread owns it.
    pub fn is_owned_by_other(self, thread: ThreadNo) -> bool
        ensures { result ≡ is_owned_by_other thread.0 (monitor_of self) }
    {
        match self {
            Monitor::Free => false,
            Monitor::Owned(owner, _) => owner.0 != thread.0,
        }
    }

    /// The monitor after a thread entered it, which no other one owns.
    pub fn entered(self, thread: ThreadNo) -> Monitor
        requires { count_of (monitor_of self) < most_entries }
        ensures { monitor_of result ≡ entered thread.0 (monitor_of self) }
    {
        match self {
            Monitor::Free => Monitor::Owned(thread, 1),
            Monitor::Owned(owner, count) => Monitor::Owned(owner, count + 1),
        }
    }

    /// The monitor after its owner left it.
    pub fn exited(self) -> Monitor
        ensures { monitor_of result ≡ exited (monitor_of self) }
    {
        match self {
            Monitor::Owned(owner, count) if count > 1 => Monitor::Owned(owner, count - 1),
            _ => Monitor::Free,
        }
    }
}
