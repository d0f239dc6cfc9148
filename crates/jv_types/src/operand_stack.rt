//! An operand stack (JVMS 2.6.2).

ghost use Rattle.std.specs.Prelude.{◌≡◌, ◌∷◌, [], ◌++◌, ◌==◌, length, IsSome, ◌↔◌, ◌<◌, OnOk, OnErr, option_to_list};

use crate::memory::NoMemory;
use std::alloc::Global;
use std::marker::Model;

/// The operands of a frame, or what is known of them. Contracts see them from the top down.
#[derive(Debug, Drop)]
pub struct OperandStack<T> {
    /// From the bottom up.
    operands: Vec<T>,
}

impl<T> Model for OperandStack<T> {
    ghost use Rattle.std.specs.Prelude.{List, reverse};

    ghost Value = { List T };

    ghost view = { λ it. reverse it.operands.items };
}

impl<T> OperandStack<T> {
    /// A stack without operands, which takes no memory.
    pub fn new(alloc: Global) -> OperandStack<T>
        ensures { result ≡ [] }
    {
        OperandStack {
            operands: Vec::new(alloc),
        }
    }

    /// The number of operands.
    pub fn len(&self) -> usize
        ensures { result ≡ length self.now }
    {
        self.operands.len()
    }

    /// Whether there are no operands.
    pub fn is_empty(&self) -> bool
        ensures { result ≡ (length self.now == 0) }
    {
        self.operands.is_empty()
    }

    /// Puts an operand on top. Where there is no memory for it, the stack stays.
    pub fn push(&mut self, operand: T) -> Result<(), NoMemory>
    where
        T: Drop,
        ensures ok { OnOk result (self.new ≡ operand ∷ self.old) }
        ensures err { OnErr result (self.new ≡ self.old) }
    {
        self.operands.push(operand)?;
        Ok(())
    }

    /// Takes the top operand away, where there is one.
    pub fn pop(&mut self) -> Option<T>
        ensures operands { self.old ≡ option_to_list result ++ self.new }
        ensures some { IsSome result ↔ (0 < length self.old) }
    {
        self.operands.pop()
    }
}
