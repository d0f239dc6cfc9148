//! Methods by slot.

ghost use Rattle.std.specs.Prelude.{◌≡◌, ◌++◌, ◌<◌, IfOk, IsSome, OnOk, Some, length, slice_get};
ghost use Rattle.class_versions.specs.Slots.{HaveSlots, method_of, methods_to, row_of, slot_of};

use class_methods::MethodSignatures;
use jv_types::{ClassNo, List, MethodNo, NoMemory};
use member_numbers::MemberNumbers;
use std::alloc::Global;
use std::marker::Model;

/// A slot for each method of some classes.
#[derive(Drop)]
pub struct SlotTable {
    numbers: MemberNumbers,
    /// For each slot its method,
    methods: List<MethodNo>,
    /// and the number of the method's name and descriptor.
    signatures: List<u32>,
}

impl Model for SlotTable {
    ghost use Rattle.std.specs.Prelude.{◌≡◌, length};
    ghost use Rattle.class_versions.specs.Slots.{Slots};

    ghost Value = { Slots };

    ghost view = { λ it. record {
      counts = it.numbers;
      methods = it.methods.items;
      signatures = it.signatures.items;
    } };

    ghost invariant = { λ it. length it.signatures.items ≡ length it.methods.items };
}

/// Adds the methods of a class, and tells how many they are.
fn add_class(
    methods: &mut List<MethodNo>,
    numbers: &mut List<u32>,
    signatures: &MethodSignatures,
    class: ClassNo,
) -> Result<u32, NoMemory>
    requires { class.0 < length signatures.now }
    ensures count { IfOk result (λ count. count ≡ length (row_of signatures.now class.0)) }
    ensures methods { OnOk result (methods.new.items
        ≡ methods.old.items ++ methods_to class (length (row_of signatures.now class.0))) }
    ensures numbers { OnOk result (numbers.new.items
        ≡ numbers.old.items ++ row_of signatures.now class.0) }
{
    let count = signatures.methods(class);
    for index in 0..count {
        let method = MethodNo { class, index };
        methods.push(method)?;
        numbers.push(signatures.signature(method))?;
    }
    Ok(count)
}

impl SlotTable {
    /// The slots of the methods with these signatures. It fails only for want of memory, or of
    /// numbers of 32 bits.
    pub fn open(alloc: Global, signatures: &MethodSignatures) -> Result<SlotTable, NoMemory>
        ensures { IfOk result (λ slots. HaveSlots signatures.now slots) }
    {
        let mut numbers = MemberNumbers::new(alloc);
        let mut methods = List::new(alloc);
        let mut rows = List::new(alloc);
        for class in 0..signatures.classes() {
            let count = add_class(&mut methods, &mut rows, signatures, ClassNo(class))?;
            numbers.push(count)?;
        }
        Ok(SlotTable {
            numbers,
            methods,
            signatures: rows,
        })
    }

    /// The slot of a method.
    pub fn slot(&self, method: MethodNo) -> u32
        requires { IsSome (slot_of self.now method) }
        ensures { slot_of self.now method ≡ Some result }
    {
        self.numbers.number(method.class, method.index)
    }

    /// The method of a slot.
    pub fn method(&self, slot: u32) -> MethodNo
        requires { IsSome (method_of self.now slot) }
        ensures { method_of self.now slot ≡ Some result }
    {
        *self.methods.get(slot)
    }

    /// The number of the name and descriptor of a slot's method.
    pub fn signature(&self, slot: u32) -> u32
        requires { IsSome (method_of self.now slot) }
        ensures { slice_get self.now.signatures slot ≡ Some result }
    {
        *self.signatures.get(slot)
    }
}
