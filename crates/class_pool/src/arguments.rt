//! How many words the arguments of a call take.

ghost use Rattle.std.specs.Prelude.{◌≡◌, IfOk};
ghost use Rattle.code_model.specs.Names.{member_at};
ghost use Rattle.code_model.specs.OperandReading.{is_argument_count};
ghost use Rattle.jv_types.specs.ClassData.{class_data_of, pool_of};

use jv_types::{ClassData, Const, List, NoMemory, text_at};
use method_descriptors::parameter_words;
use std::alloc::Global;

/// The descriptor of the member that an index names, or no text where it names none.
fn descriptor_at(pool: &List<Const>, index: u16) -> &[u16]
    ensures { result.now ≡ (member_at (pool_of pool.now.items) index).descriptor }
{
    match pool.as_slice().get(usize::from(index)) {
        Some(
            Const::Fieldref(_, pair)
            | Const::Methodref(_, pair)
            | Const::InterfaceMethodref(_, pair),
        ) => match pool.as_slice().get(usize::from(*pair)) {
            Some(Const::NameAndType(_, descriptor)) => text_at(pool.as_slice(), *descriptor),
            _ => &[],
        },
        _ => &[],
    }
}

/// Whether the arguments of the method that an index names, the receiver among them, take so many
/// words.
pub fn is_argument_count(
    alloc: Global,
    class: &ClassData,
    index: u16,
    count: u8,
) -> Result<bool, NoMemory>
    ensures { IfOk result (λ same. same ≡ is_argument_count (class_data_of class.now) index count) }
{
    match parameter_words(alloc, descriptor_at(&class.pool, index))? {
        Some(words) => Ok(words + 1 == u64::from(count)),
        None => Ok(false),
    }
}
