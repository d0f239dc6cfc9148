//! A list behind its count, as class files have it for each kind of item.

ghost use Rattle.std.specs.Prelude.{map};
ghost use Rattle.std.specs.List.{flat_map};
ghost use Rattle.jv_model.specs.ClassBytes.{table};
ghost use Rattle.jv_model.specs.Partial.{first_of};
ghost use Rattle.jv_types.specs.Refusal.{limited_of};
ghost use Rattle.class_writer.specs.Written.{Appends, table_limit};

use crate::error::WriteClassError;
use crate::output::Output;
use jv_types::{List, What};

/// What stands in a list of a class file.
pub trait Item {
    ghost use Rattle.std.specs.Prelude.{ℕ, List, Option};
    ghost use Rattle.jv_model.specs.Refusal.{Limited};

    /// The definitions' own items of this kind.
    ghost Meaning: { Type 0 };

    /// Which of them a value is.
    ghost meaning: { Self → Meaning };

    /// How it is spelled.
    ghost spelling: { Meaning → List ℕ };

    /// The first list in it that is too long.
    ghost limit: { Meaning → Option (Limited × ℕ) };

    /// Writes it, unless a list in it is too long.
    fn write(&self, out: &mut Output) -> Result<(), WriteClassError>
        ensures { Appends result out.old out.new (spelling (meaning self.now))
            (limit (meaning self.now)) };
}

fn write_items<T: Item>(out: &mut Output, items: &[T]) -> Result<(), WriteClassError>
    ensures { Appends result out.old out.new (flat_map T.spelling (map T.meaning items.now))
        (first_of T.limit (map T.meaning items.now)) }
{
    for item in items {
        item.write(out)?;
    }
    Ok(())
}

/// Writes a list behind its count, unless it or a list in it is too long.
pub fn write_table<T: Item>(
    out: &mut Output,
    what: What,
    items: &List<T>,
) -> Result<(), WriteClassError>
    ensures { Appends result out.old out.new (table T.spelling (map T.meaning items.now.items))
        (table_limit (limited_of what) T.limit (map T.meaning items.now.items)) }
{
    let items = items.as_slice();
    out.count(what, items.len() as u64)?;
    write_items(out, items)
}
