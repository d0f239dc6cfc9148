//! The signatures of members.

ghost use Rattle.std.specs.Prelude.{◌≡◌, [], not, is_some, position, IfOk, OnOk, OnErr};
ghost use Rattle.std.specs.List.{list_any};
ghost use Rattle.class_names.specs.Distinct.{with_item, same_signature};

use indexmap::IndexSet;
use jv_types::NoMemory;
use std::alloc::Global;
use std::marker::Model;

/// The most signatures, so that each has a number of 32 bits.
const MOST_SIGNATURES: usize = 0xffff_ffff;

/// The numbers of a member's name and of its descriptor.
#[derive(Clone, Copy, Debug, PartialEq, Eq, Hash)]
pub struct Signature {
    pub name: u32,
    pub descriptor: u32,
}

/// Signatures, each once. Contracts see the list of them.
#[derive(Drop)]
pub struct Signatures {
    rows: IndexSet<Signature>,
}

impl Model for Signatures {
    ghost use Rattle.std.specs.Prelude.{List, ◌≤◌, length};
    ghost use Rattle.class_names.specs.declared.signatures.Signature.{Signature};
    ghost use Rattle.class_names.specs.Distinct.{most_numbers};

    ghost Value = { List Signature };

    ghost view = { λ it. it.rows.keys };

    ghost invariant = { λ it. length it.rows.keys ≤ most_numbers };
}

impl Signatures {
    /// No signatures, which take no memory.
    pub fn new(alloc: Global) -> Signatures
        ensures { result ≡ [] }
    {
        Signatures {
            rows: IndexSet::new(alloc),
        }
    }

    /// The number of a signature, where it is one of them.
    pub fn number_of(&self, signature: Signature) -> Option<u32>
        ensures number { result ≡ position (same_signature signature) self.now }
        ensures found { is_some result ≡ list_any (same_signature signature) self.now }
    {
        let number = self.rows.get_index_of(&signature)?;
        Some(number as u32)
    }

    /// Adds a signature at the end, and answers whether it is a new one. Where there is no memory
    /// or no number for it, they stay.
    pub fn add(&mut self, signature: Signature) -> Result<bool, NoMemory>
        ensures ok { OnOk result (self.new ≡ with_item same_signature self.old signature) }
        ensures is_new { IfOk result (λ b.
            b ≡ not (list_any (same_signature signature) self.old)) }
        ensures err { OnErr result (self.new ≡ self.old) }
    {
        if self.rows.len() >= MOST_SIGNATURES {
            return Err(NoMemory);
        }
        let (_, is_new) = self.rows.insert_full(signature)?;
        Ok(is_new)
    }
}
