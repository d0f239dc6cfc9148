//! The instructions of a method, found by number and by place.

ghost use Rattle.std.specs.Prelude.{◌≡◌, ◌++◌, ◌∷◌, [], ◌<◌, ◌≤◌, ◌-◌, ◌==◌, length, position, map, replicate, slice_get, Some, IfOk, OnOk, OnErr};
ghost use Rattle.jv_types.specs.Instructions.{placed_of, starts_at, end_of, most_places, no_number, Follows};

use crate::duplicate::{Duplicate, copy_list};
use crate::instruction::Instruction;
use crate::list::List;
use crate::memory::NoMemory;
use std::alloc::Global;
use std::marker::Model;

/// An instruction, and its place in the code.
#[derive(Debug, Drop)]
pub struct Insn {
    /// The place of its opcode, in bytes from the begin of the code.
    pub pc: u32,
    /// The place after it.
    pub next: u32,
    pub instruction: Instruction,
}

/// What stands in the table for a place at which no instruction begins.
const NO_NUMBER: u16 = 0xffff;

/// The instructions of a method by number, from 0 in the order of their places. They follow each
/// other from place 0 on, and a table finds the one at a pc. Contracts see the definitions' own
/// list.
#[derive(Debug, Drop)]
pub struct Instructions {
    rows: List<Insn>,
    /// For each place up to the end, the number of the instruction that begins there.
    numbers: List<u16>,
}

impl Model for Instructions {
    ghost use Rattle.std.specs.Prelude.{ℕ, List, map};
    ghost use Rattle.jv_model.specs.Code.{Placed};
    ghost use Rattle.jv_types.specs.Instructions.{placed_of, IsTable};

    ghost Value = { List (Placed ℕ) };

    ghost view = { λ it. map placed_of it.rows.items };

    ghost invariant = { λ it. IsTable (map placed_of it.rows.items) it.numbers.items };
}

/// Fills the table for an instruction of so many bytes, in room that was reserved.
fn add_number(numbers: &mut List<u16>, number: u16, bytes: u32)
    requires some { 0 < bytes }
    requires room { bytes ≤ numbers.old.spare }
    ensures { numbers.new.items
        ≡ numbers.old.items ++ number ∷ replicate (bytes - 1) no_number }
{
    numbers.add(number);
    for _ in 1..bytes {
        numbers.add(NO_NUMBER);
    }
}

impl Instructions {
    /// No instructions, which take no memory.
    pub fn new(alloc: Global) -> Instructions
        ensures { result ≡ [] }
    {
        Instructions {
            rows: List::new(alloc),
            numbers: List::new(alloc),
        }
    }

    /// How many they are.
    pub fn len(&self) -> u32
        ensures { result ≡ length self.now }
    {
        self.rows.len()
    }

    /// Whether there are none.
    pub fn is_empty(&self) -> bool
        ensures { result ≡ (length self.now == 0) }
    {
        self.rows.is_empty()
    }

    /// They themselves, in order.
    pub fn as_slice(&self) -> &[Insn]
        ensures { map placed_of result.now ≡ self.now }
    {
        self.rows.as_slice()
    }

    /// The one with that number.
    pub fn get(&self, number: u32) -> &Insn
        requires { number < length self.now }
        ensures { slice_get self.now number ≡ Some (placed_of result.now) }
    {
        self.rows.get(number)
    }

    /// The number of the one that begins at that pc, where one does. No other begins there, since
    /// they follow each other.
    pub fn number_at(&self, pc: u32) -> Option<u32>
        ensures found { result ≡ position (starts_at pc) self.now }
        ensures order { Follows 0 self.now }
    {
        match self.numbers.as_slice().get(pc as usize) {
            Some(number) if *number != NO_NUMBER => Some(u32::from(*number)),
            _ => None,
        }
    }

    /// Adds the one that begins where the last one ends. Where there is no memory, they stay.
    pub fn push(&mut self, insn: Insn) -> Result<(), NoMemory>
        requires follows { insn.pc ≡ end_of self.old }
        requires some { insn.pc < insn.next }
        requires short { insn.next ≤ most_places }
        ensures ok { OnOk result (self.new ≡ self.old ++ placed_of insn ∷ []) }
        ensures err { OnErr result (self.new ≡ self.old) }
    {
        let bytes = insn.next - insn.pc;
        self.rows.reserve(1)?;
        self.numbers.reserve(bytes)?;
        add_number(&mut self.numbers, self.rows.len() as u16, bytes);
        self.rows.add(insn);
        Ok(())
    }

    /// Equal ones, unless there is no memory for them.
    pub fn copy(&self, alloc: Global) -> Result<Instructions, NoMemory>
        ensures { IfOk result (λ copy. copy ≡ self.now) }
    {
        Ok(Instructions {
            rows: copy_list(alloc, &self.rows)?,
            numbers: self.numbers.copy(alloc)?,
        })
    }
}

impl Duplicate for Insn {
    ghost use Rattle.std.specs.Prelude.{ℕ};
    ghost use Rattle.jv_model.specs.Code.{Placed};
    ghost use Rattle.jv_types.specs.Instructions.{placed_of};

    ghost Meaning = { Placed ℕ };

    ghost meaning = { placed_of };

    fn copy(&self, alloc: Global) -> Result<Insn, NoMemory> {
        Ok(Insn {
            pc: self.pc,
            next: self.next,
            instruction: self.instruction.copy(alloc)?,
        })
    }
}
