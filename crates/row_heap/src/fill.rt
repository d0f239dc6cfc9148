//! Many equal items.

ghost use Rattle.std.specs.Prelude.{◌≡◌, ◌+◌, ◌≤◌, ◌++◌, replicate};

use jv_types::List;

/// Adds so many equal items at the end, in room that was reserved.
pub fn add_copies<T: Copy>(list: &mut List<T>, item: T, count: u32)
    requires { count ≤ list.old.spare }
    ensures items { list.new.items ≡ list.old.items ++ replicate count item }
    ensures spare { list.new.spare + count ≡ list.old.spare }
{
    for _ in 0..count {
        list.add(item);
    }
}
