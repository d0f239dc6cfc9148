//! Searches over numbers.

ghost use Rattle.std.specs.Prelude.{◌≡◌, ◌+◌, ◌≤◌, ◌==◌, length};
ghost use Rattle.std.specs.List.{list_any};
ghost use Rattle.jv_types.specs.declared.number.ClassNo.{ClassNo};
ghost use Rattle.class_world.specs.World.{signature_of};

use class_names::{Names, Signature};
use jv_types::{ClassNo, Steps};
use std::sync::ledger::Ledger;

/// The numbers of a name and of a descriptor, where both are among some texts.
pub fn signature(texts: &Names, name: &[u16], descriptor: &[u16]) -> Option<Signature>
    ensures { result ≡ signature_of texts.now name.now descriptor.now }
{
    Some(Signature {
        name: texts.number_of(name)?,
        descriptor: texts.number_of(descriptor)?,
    })
}

/// Whether a class is one of some others. Each one looked at is a step.
pub fn is_among<L: Ledger>(order: &[ClassNo], class: ClassNo, steps: &mut Steps<L>) -> bool
    ensures found { result ≡ list_any (λ (c : ClassNo). class.0 == c.0) order.now }
    ensures steps { steps.new ≤ steps.old + length order.now }
{
    for other in order {
        steps.tick();
        if class.0 == other.0 {
            return true;
        }
    }
    false
}
