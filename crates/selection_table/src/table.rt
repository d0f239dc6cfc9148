//! Tables of methods by signature.

ghost use Rattle.std.specs.Prelude.{◌≡◌, None, OnOk, Some, if◌then◌else◌};
ghost use Rattle.std.specs.Option.{option_or};
ghost use Rattle.class_names.specs.Distinct.{same_signature};
ghost use Rattle.selection_table.specs.Selection.{Sign, selected_in};

use class_names::{Signature, Signatures};
use jv_types::{List, MethodNo, NoMemory};
use std::alloc::Global;
use std::marker::Model;

/// Methods, each by its signature. Contracts see the signatures in the order in which they were
/// added, and the method of each.
#[derive(Drop)]
pub struct SelectionTable {
    signatures: Signatures,
    methods: List<MethodNo>,
}

impl Model for SelectionTable {
    ghost use Rattle.std.specs.Prelude.{◌≡◌, length};
    ghost use Rattle.selection_table.specs.Selection.{Selection};

    ghost Value = { Selection };

    ghost view = { λ it. record { signatures = it.signatures; methods = it.methods.items } };

    ghost invariant = { λ it. length it.methods.items ≡ length it.signatures };
}

impl SelectionTable {
    /// A table without methods.
    pub fn new(alloc: Global) -> SelectionTable
        ensures { (signature : Sign) → selected_in result signature ≡ None }
    {
        SelectionTable {
            signatures: Signatures::new(alloc),
            methods: List::new(alloc),
        }
    }

    /// Adds a method, unless one of its signature is there. It fails only for want of memory, and
    /// then the table stays.
    pub fn add(&mut self, signature: Signature, method: MethodNo) -> Result<(), NoMemory>
        ensures ok { OnOk result ((other : Sign) → selected_in self.new other
            ≡ option_or (selected_in self.old other)
            (if same_signature other signature then Some method else None)) }
    {
        self.methods.reserve(1)?;
        let is_new = self.signatures.add(signature)?;
        if !is_new {
            return Ok(());
        }
        self.methods.add(method);
        Ok(())
    }

    /// The first method of a signature that was added, where one was.
    pub fn find(&self, signature: Signature) -> Option<MethodNo>
        ensures { result ≡ selected_in self.now signature }
    {
        let number = self.signatures.number_of(signature)?;
        Some(*self.methods.get(number))
    }
}
