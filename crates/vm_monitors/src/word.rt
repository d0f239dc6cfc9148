//! Monitors that are kept as lock words alone, as those of classes are.

ghost use Rattle.std.specs.Prelude.{◌≡◌, ◌<◌, IfSome};
ghost use Rattle.jv_model.specs.Limits.{most_threads};
ghost use Rattle.machine_model.specs.Heap.{entered, exited, is_owned_by, is_owned_by_other};
ghost use Rattle.vm_monitors.specs.Words.{monitor_of_word, count_of, most_entries, IsLockWord, entered_word, left_word};
ghost use Rattle.vm_monitors.specs.Laws.{WordsAreMonitors, LeavingUndoesEntering};

use crate::monitor::Monitor;
use jv_types::ThreadNo;

/// Each monitor that a machine keeps has a word of its own.
pub fn words_are_monitors()
    ensures { WordsAreMonitors }
{}

/// A word whose monitor is left as often as it was entered is again what it was.
pub fn leaving_undoes_entering()
    ensures { LeavingUndoesEntering }
{}

/// Whether a thread owns the monitor.
pub fn owns_word(word: u64, thread: ThreadNo) -> bool
    ensures { result ≡ is_owned_by thread.0 (monitor_of_word word) }
{
    Monitor::of(word).is_owned_by(thread)
}

/// Whether a thread would have to wait for the monitor, since another one owns it. The thread need
/// not have started yet.
pub fn other_owns_word(word: u64, thread: ThreadNo) -> bool
    ensures { result ≡ is_owned_by_other thread.0 (monitor_of_word word) }
{
    Monitor::of(word).is_owned_by_other(thread)
}

/// The word after a thread entered the monitor (`monitorenter`, JVMS 6.5). There is none exactly
/// where another thread owns it.
pub fn enter_word(word: u64, thread: ThreadNo) -> Option<u64>
    requires thread { thread.0 < most_threads }
    requires count { count_of (monitor_of_word word) < most_entries }
    ensures word { result ≡ entered_word thread.0 word }
    ensures monitor { IfSome result (λ after.
        monitor_of_word after ≡ entered thread.0 (monitor_of_word word)) }
    ensures one { IfSome result IsLockWord }
{
    let monitor = Monitor::of(word);
    if monitor.is_owned_by_other(thread) {
        return None;
    }
    Some(monitor.entered(thread).word())
}

/// The word after a thread left the monitor (`monitorexit`, JVMS 6.5). There is none exactly where
/// the thread doesn't own it. The word of a monitor that is free then is 0.
pub fn leave_word(word: u64, thread: ThreadNo) -> Option<u64>
    ensures word { result ≡ left_word thread.0 word }
    ensures monitor { IfSome result (λ after.
        monitor_of_word after ≡ exited (monitor_of_word word)) }
    ensures one { IfSome result IsLockWord }
{
    let monitor = Monitor::of(word);
    if !monitor.is_owned_by(thread) {
        return None;
    }
    Some(monitor.exited().word())
}
