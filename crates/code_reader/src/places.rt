//! Where the branches of code and the rows of its exception table lead (JVMS 4.7.3, 4.9.1).

ghost use Rattle.std.specs.Prelude.{◌≡◌, ℕ, map, option_map};
ghost use Rattle.std.specs.List.{list_all};
ghost use Rattle.jv_model.specs.Flow.{targets_of};
ghost use Rattle.jv_model.specs.Refusal.{wrong_target, wrong_handler};
ghost use Rattle.code_model.specs.CodePlaces.{is_start, is_caught, is_handler, target_fault, handler_fault};
ghost use Rattle.jv_types.specs.ClassData.{pool_of};
ghost use Rattle.jv_types.specs.Code.{handler_of};
ghost use Rattle.jv_types.specs.Instruction.{instruction_of, pairs_of};
ghost use Rattle.code_reader.specs.Switch.{target_of};

use class_pool::names;
use jv_types::{Const, Handler, Instruction, Instructions, List, SwitchPair, tag};

/// Whether an instruction stands at the place.
pub fn is_start(instructions: &Instructions, place: u32) -> bool
    ensures { result ≡ is_start instructions.now place }
{
    instructions.number_at(place).is_some()
}

/// Whether an instruction stands at each of the places.
fn are_starts(instructions: &Instructions, places: &[u32]) -> bool
    ensures { result ≡ list_all (is_start instructions.now) places.now }
{
    for place in places {
        if !is_start(instructions, *place) {
            return false;
        }
    }
    true
}

/// Whether an instruction stands at the target of each pair.
fn are_led(instructions: &Instructions, pairs: &[SwitchPair]) -> bool
    ensures { result ≡ list_all (is_start instructions.now) (map target_of (pairs_of pairs.now)) }
{
    for pair in pairs {
        if !is_start(instructions, pair.target) {
            return false;
        }
    }
    true
}

/// Whether an instruction branches to instructions.
#[tactic(auto, unfolding(jv_model::specs::Flow::targets_of))]
fn is_led(instructions: &Instructions, its: &Instruction) -> bool
    ensures { result
        ≡ list_all (is_start instructions.now) (targets_of (instruction_of its.now)) }
{
    match its {
        Instruction::IfZero(_, target)
        | Instruction::IfInts(_, target)
        | Instruction::IfReferences(_, target)
        | Instruction::IfNull(_, target)
        | Instruction::Goto(target) => are_starts(instructions, &[*target]),
        Instruction::Tableswitch {
            otherwise,
            targets,
            ..
        } => is_start(instructions, *otherwise) && are_starts(instructions, targets.as_slice()),
        Instruction::Lookupswitch { otherwise, pairs } => {
            is_start(instructions, *otherwise) && are_led(instructions, pairs.as_slice())
        }
        _ => true,
    }
}

/// The pc of the first instruction that branches elsewhere.
pub fn wrong_target(instructions: &Instructions) -> Option<u32>
    ensures { (method : ℕ) → option_map (wrong_target method) result
        ≡ target_fault method instructions.now instructions.now }
{
    for number in 0..instructions.len() {
        let insn = instructions.get(number);
        if !is_led(instructions, &insn.instruction) {
            return Some(insn.pc);
        }
    }
    None
}

/// Whether the type that a row catches is a class.
fn is_caught(pool: &List<Const>, catch: Option<u16>) -> bool
    ensures { result ≡ is_caught (pool_of pool.now.items) catch }
{
    match catch {
        Some(index) => names(pool, tag::CLASS, index),
        None => true,
    }
}

/// Whether a row is about a part of the code, which has that length.
fn is_handler(pool: &List<Const>, end: u32, instructions: &Instructions, row: &Handler) -> bool
    ensures { result
        ≡ is_handler (pool_of pool.now.items) end instructions.now (handler_of row.now) }
{
    row.from < row.to
        && is_start(instructions, row.from)
        && (is_start(instructions, row.to) || row.to == end)
        && is_start(instructions, row.target)
        && is_caught(pool, row.catch)
}

/// The number of the first row that isn't.
pub fn wrong_handler(
    pool: &List<Const>,
    end: u32,
    instructions: &Instructions,
    rows: &List<Handler>,
) -> Option<u32>
    ensures { (method : ℕ) → option_map (wrong_handler method) result
        ≡ handler_fault (pool_of pool.now.items) method end instructions.now 0
        (map handler_of rows.now.items) }
{
    for index in 0..rows.len() {
        if !is_handler(pool, end, instructions, rows.get(index)) {
            return Some(index);
        }
    }
    None
}
