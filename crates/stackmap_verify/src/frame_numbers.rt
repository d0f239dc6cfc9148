//! Where the frames of a stack map stand.

ghost use Rattle.std.specs.Prelude.{◌≡◌, ◌==◌, ℕ, ◌<◌, [], length, IfOk, OnOk, Some, if◌then◌else◌};
ghost use Rattle.jv_model.specs.Partial.{or_else};
ghost use Rattle.stackmap_verify.specs.FrameNumbers.{number_in, number_if, AreNumbers};

use jv_types::{Frames, List, NoMemory};
use std::alloc::Global;
use std::marker::Model;

/// For each place of some code, up to the last one at which a frame of the stack map stands, the
/// number of the first frame there. Contracts see the places in order.
#[derive(Drop)]
pub struct FrameNumbers {
    numbers: List<Option<u32>>,
}

impl Model for FrameNumbers {
    ghost use Rattle.std.specs.Prelude.{ℕ, List, Option};

    ghost Value = { List (Option ℕ) };

    ghost view = { λ it. it.numbers.items };
}

/// Adds places without a frame, so that one is there.
fn extend(numbers: &mut List<Option<u32>>, pc: u32) -> Result<(), NoMemory>
    ensures there { OnOk result (pc < length numbers.new.items) }
    ensures same { OnOk result ((at : ℕ) → number_in numbers.new.items at
        ≡ number_in numbers.old.items at) }
{
    while numbers.len() <= pc {
        numbers.push(None)?;
    }
    Ok(())
}

/// Adds a frame at a place, where none stands there.
fn add_number(numbers: &mut List<Option<u32>>, pc: u32, number: u32) -> Result<(), NoMemory>
    ensures { OnOk result ((at : ℕ) → number_in numbers.new.items at
        ≡ or_else (number_in numbers.old.items at) (number_if (pc == at) number)) }
{
    extend(numbers, pc)?;
    if numbers.get(pc).is_none() {
        numbers.set(pc, Some(number));
    }
    Ok(())
}

impl FrameNumbers {
    /// Those of some frames, unless there is no memory for them.
    pub fn of(alloc: Global, frames: &Frames) -> Result<FrameNumbers, NoMemory>
        ensures { IfOk result (λ numbers. AreNumbers frames.now numbers) }
    {
        let mut numbers = List::new(alloc);
        for number in 0..frames.len() {
            add_number(&mut numbers, frames.pc(number), number)?;
        }
        Ok(FrameNumbers { numbers })
    }

    /// The number of the first frame at a place, where one stands there.
    pub fn at(&self, pc: u32) -> Option<u32>
        ensures { result ≡ number_in self.now pc }
    {
        match self.numbers.as_slice().get(pc as usize) {
            Some(number) => *number,
            None => None,
        }
    }
}
