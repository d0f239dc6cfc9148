//! Signatures by method.

ghost use Rattle.std.specs.Prelude.{◌≡◌, ◌<◌, [], IfOk, IsSome, Some, get_or, length};
ghost use Rattle.class_methods.specs.Signatures.{AreSignatures, signature_at};

use crate::filling::{Filling, add_class};
use class_world::World;
use jv_types::{ClassNo, List, MethodNo, NoMemory};
use std::alloc::Global;
use std::marker::Model;

/// The signatures of the methods of a world, by number. Contracts see that of each method.
#[derive(Drop)]
pub struct MethodSignatures {
    /// For each class, by number, those of its methods, by index.
    rows: List<List<u32>>,
}

impl Model for MethodSignatures {
    ghost use Rattle.std.specs.Prelude.{map};
    ghost use Rattle.class_methods.specs.Signatures.{Numbers};

    ghost Value = { Numbers };

    ghost view = { λ it. map (λ row. row.items) it.rows.items };
}

impl MethodSignatures {
    /// The signatures of the methods of a world. It fails only for want of memory.
    pub fn open(alloc: Global, world: &World) -> Result<MethodSignatures, NoMemory>
        ensures { IfOk result (λ signatures. AreSignatures world.now signatures) }
    {
        let mut filling = Filling::new(alloc);
        let mut rows = List::new(alloc);
        for class in 0..world.classes() {
            let origin = &world.class(ClassNo(class)).origin;
            add_class(alloc, &mut filling, &mut rows, origin)?;
        }
        Ok(MethodSignatures { rows })
    }

    /// How many classes there are.
    pub fn classes(&self) -> u32
        ensures { result ≡ length self.now }
    {
        self.rows.len()
    }

    /// How many methods a class has.
    pub fn methods(&self, class: ClassNo) -> u32
        requires { class.0 < length self.now }
        ensures { result ≡ length (get_or self.now class.0 []) }
    {
        self.rows.get(class.0).len()
    }

    /// The number of the name and descriptor of a method.
    pub fn signature(&self, method: MethodNo) -> u32
        requires { IsSome (signature_at self.now method) }
        ensures { signature_at self.now method ≡ Some result }
    {
        *self.rows.get(method.class.0).get(method.index)
    }
}
