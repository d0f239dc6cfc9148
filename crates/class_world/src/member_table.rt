//! Which members the classes of a world declare, and in which order classes are looked at.

ghost use Rattle.std.specs.Prelude.{◌≡◌, ◌+◌, ◌<◌, ◌≤◌, length, map, position, IsTrue};
ghost use Rattle.class_names.specs.Distinct.{same_signature};
ghost use Rattle.class_world.specs.MemberTable.{order_at, own_at, is_order, first_with, IsWithin};

use class_names::{Signature, Signatures};
use jv_types::{ClassNo, List, Steps};
use std::marker::Model;
use std::sync::ledger::Ledger;

/// For each class the order in which a member of it is looked for, and the signatures that it
/// declares itself.
#[derive(Drop)]
pub struct MemberTable {
    orders: List<List<ClassNo>>,
    declared: List<Signatures>,
}

impl Model for MemberTable {
    ghost use Rattle.std.specs.Prelude.{map};
    ghost use Rattle.class_world.specs.MemberTable.{Members, IsWithin};

    ghost Value = { Members };

    ghost view = { λ it. record {
      orders = map (λ order. order.items) it.orders.items;
      declared = it.declared.items;
    } };

    ghost invariant = { λ it.
        IsWithin (map (λ order. order.items) it.orders.items) it.declared.items };
}

/// The first of some classes that declares the signature, and the member's index there.
fn first_declaring<L: Ledger>(
    declared: &[Signatures],
    order: &[ClassNo],
    signature: Signature,
    steps: &mut Steps<L>,
) -> Option<(ClassNo, u32)>
    requires { IsTrue (is_order declared.now order.now) }
    ensures found { result ≡ first_with declared.now signature order.now }
    ensures steps { steps.new ≤ steps.old + length order.now }
{
    for class in order {
        steps.tick();
        if let Some(index) = declared[class.0 as usize].number_of(signature) {
            return Some((*class, index));
        }
    }
    None
}

impl MemberTable {
    /// The table of these orders and these members.
    pub fn new(orders: List<List<ClassNo>>, declared: List<Signatures>) -> MemberTable
        requires { IsWithin (map (λ order. order.items) orders.items) declared.items }
        ensures { result ≡ record {
          orders = map (λ order. order.items) orders.items;
          declared = declared.items;
        } }
    {
        MemberTable { orders, declared }
    }

    /// The classes in which a member of a class is looked for, in order.
    pub fn order(&self, class: ClassNo) -> &[ClassNo]
        requires { class.0 < length self.now.orders }
        ensures { result.now ≡ order_at self.now class.0 }
    {
        self.orders.get(class.0).as_slice()
    }

    /// The first class in a class's order that declares the signature, and the member's index
    /// there. Each class looked at is a step.
    pub fn find<L: Ledger>(
        &self,
        class: ClassNo,
        signature: Signature,
        steps: &mut Steps<L>,
    ) -> Option<(ClassNo, u32)>
        requires { class.0 < length self.now.orders }
        ensures found { result
            ≡ first_with self.now.declared signature (order_at self.now class.0) }
        ensures steps { steps.new ≤ steps.old + length (order_at self.now class.0) }
    {
        first_declaring(
            self.declared.as_slice(),
            self.orders.get(class.0).as_slice(),
            signature,
            steps,
        )
    }

    /// The index of the member of a class itself that has the signature.
    pub fn own(&self, class: ClassNo, signature: Signature) -> Option<u32>
        requires { class.0 < length self.now.declared }
        ensures { result ≡ position (same_signature signature) (own_at self.now class.0) }
    {
        self.declared.get(class.0).number_of(signature)
    }
}
