//! Frames of types (JVMS 4.10.1.4).

ghost use Rattle.std.specs.Prelude.{◌≡◌, ◌∷◌, ◌≤◌, ◌<◌, length, map, sum, drop, slice_get, slice_set, reverse, IfOk, OnOk, OnErr};
ghost use Rattle.type_rules.specs.Frames.{words_of};

use crate::types::VerificationType;
use jv_types::{List, NoMemory};
use std::alloc::Global;
use std::marker::Model;

/// The types of the locals and of the operands. Contracts see the locals by number, a Long followed
/// by Top, and the operands from the top down, a Long once.
#[derive(Debug, Drop)]
pub struct TypeFrame {
    locals: List<VerificationType>,
    /// From the bottom up.
    stack: List<VerificationType>,
}

impl Model for TypeFrame {
    ghost use Rattle.std.specs.Prelude.{reverse};
    ghost use Rattle.type_rules.specs.Frames.{Types};

    ghost Value = { Types };

    ghost view = { λ it. record { locals = it.locals.items; stack = reverse it.stack.items } };
}

impl TypeFrame {
    /// A frame of these locals, and of these operands from the bottom up.
    pub fn new(locals: List<VerificationType>, stack: List<VerificationType>) -> TypeFrame
        ensures locals { result.locals ≡ locals.items }
        ensures stack { result.stack ≡ reverse stack.items }
    {
        TypeFrame { locals, stack }
    }

    /// The locals.
    pub fn locals(&self) -> &[VerificationType]
        ensures { result.now ≡ self.now.locals }
    {
        self.locals.as_slice()
    }

    /// The operands from the bottom up.
    pub fn operands(&self) -> &[VerificationType]
        ensures { reverse result.now ≡ self.now.stack }
    {
        self.stack.as_slice()
    }

    /// The local with a number, where there is one.
    pub fn local(&self, number: u32) -> Option<VerificationType>
        ensures { result ≡ slice_get self.now.locals number }
    {
        self.locals.as_slice().get(number as usize).copied()
    }

    /// The operand with a number, from the top down, where there is one.
    pub fn operand(&self, number: u32) -> Option<VerificationType>
        ensures { result ≡ slice_get self.now.stack number }
    {
        if number >= self.stack.len() {
            return None;
        }
        Some(*self.stack.get(self.stack.len() - 1 - number))
    }

    /// The number of operands.
    pub fn depth(&self) -> u32
        ensures { result ≡ length self.now.stack }
    {
        self.stack.len()
    }

    /// The number of locals.
    pub fn local_count(&self) -> u32
        ensures { result ≡ length self.now.locals }
    {
        self.locals.len()
    }

    /// Puts a type on top. Where there is no memory for it, the frame stays.
    pub fn push(&mut self, operand: VerificationType) -> Result<(), NoMemory>
        ensures ok { OnOk result
            (self.new ≡ record self.old { stack = operand ∷ self.old.stack }) }
        ensures err { OnErr result (self.new ≡ self.old) }
    {
        self.stack.push(operand)
    }

    /// Takes the topmost operands away, so many.
    pub fn drop_operands(&mut self, count: u32)
        requires { count ≤ length self.old.stack }
        ensures { self.new ≡ record self.old { stack = drop count self.old.stack } }
    {
        let kept = self.stack.len() - count;
        self.stack.cut(kept);
    }

    /// Replaces the type of a local.
    pub fn set_local(&mut self, number: u32, local: VerificationType)
        requires { number < length self.old.locals }
        ensures { self.new
            ≡ record self.old { locals = slice_set self.old.locals number local } }
    {
        self.locals.set(number, local);
    }

    /// Replaces the type of an operand, by its number from the top down.
    pub fn set_operand(&mut self, number: u32, operand: VerificationType)
        requires { number < length self.old.stack }
        ensures { self.new
            ≡ record self.old { stack = slice_set self.old.stack number operand } }
    {
        let place = self.stack.len() - 1 - number;
        self.stack.set(place, operand);
    }

    /// An equal frame, unless there is no memory for it.
    pub fn copy(&self, alloc: Global) -> Result<TypeFrame, NoMemory>
        ensures { IfOk result (λ copy. copy ≡ self.now) }
    {
        Ok(TypeFrame {
            locals: self.locals.copy(alloc)?,
            stack: self.stack.copy(alloc)?,
        })
    }
}
