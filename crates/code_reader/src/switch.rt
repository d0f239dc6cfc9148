//! The operands of the two switches (JVMS 6.5).

ghost use Rattle.std.specs.Prelude.{◌≡◌, ◌<◌, ◌^◌, ◌≤ℤ◌, IfOk, OnOk, option_map};
ghost use Rattle.code_model.specs.OperandReading.{keys_between, padding_at, targets_at, pairs_at, table_at, lookup_at};
ghost use Rattle.jv_types.specs.Instruction.{instruction_of, pair_of, pairs_of};
ghost use Rattle.jv_types.specs.Reading.{GivesItem};
ghost use Rattle.code_reader.specs.Behind.{IsBehind};
ghost use Rattle.code_reader.specs.Gives.{GivesOperand, site_of};
ghost use Rattle.code_reader.specs.Switch.{pair_at, key_of};

use crate::error::OperandError;
use crate::operands::{Site, read_s4, read_target};
use jv_types::{Cut, Input, Instruction, List, SwitchPair};
use std::alloc::Global;

/// The padding up to a place that 4 divides. It may be any bytes.
fn read_padding<'a>(input: &mut Input<'a>) -> Result<&'a [u8], Cut>
    ensures padding { GivesItem (λ padding. (padding.now, input.new)) result
        (padding_at input.old) }
    ensures on { OnOk result (IsBehind input.old input.new) }
{
    input.run((4 - input.at() % 4) % 4)
}

/// How many keys there are from the lowest up to the highest.
fn keys_between(low: i32, high: i32) -> u64
    requires { low ≤ℤ high }
    ensures { result ≡ keys_between low high }
{
    u64::from(high.abs_diff(low)) + 1
}

/// Reads so many targets. The count isn't backed by bytes, so no room is reserved for it.
fn read_targets(
    alloc: Global,
    site: Site,
    count: u64,
    input: &mut Input,
) -> Result<List<u32>, OperandError>
    requires { site.pc < 2 ^ 31 }
    ensures targets { GivesOperand site.entry (λ targets. (targets.items, input.new)) result
        (targets_at (site_of site.entry) count input.old) }
    ensures on { OnOk result (IsBehind input.old input.new) }
{
    let mut targets = List::new(alloc);
    for _ in 0..count {
        let target = read_target(site, input)?;
        targets.push(target)?;
    }
    Ok(targets)
}

/// Reads a key, which has to be above the one before it, and its target.
fn read_pair(
    site: Site,
    before: Option<SwitchPair>,
    input: &mut Input,
) -> Result<SwitchPair, OperandError>
    requires { site.pc < 2 ^ 31 }
    ensures pair { GivesOperand site.entry (λ pair. (pair_of pair, input.new)) result
        (pair_at (site_of site.entry) (option_map key_of before) input.old) }
    ensures on { OnOk result (IsBehind input.old input.new) }
{
    let key = read_s4(input)?;
    if let Some(last) = before {
        if last.key >= key {
            return Err(OperandError::Operand);
        }
    }
    let target = read_target(site, input)?;
    Ok(SwitchPair { key, target })
}

/// Reads so many pairs. The count isn't backed by bytes, so no room is reserved for it.
fn read_pairs(
    alloc: Global,
    site: Site,
    count: u32,
    input: &mut Input,
) -> Result<List<SwitchPair>, OperandError>
    requires { site.pc < 2 ^ 31 }
    ensures pairs { GivesOperand site.entry (λ pairs. (pairs_of pairs.items, input.new)) result
        (pairs_at (site_of site.entry) None count input.old) }
    ensures on { OnOk result (IsBehind input.old input.new) }
{
    let mut pairs = List::new(alloc);
    let mut before = None;
    for _ in 0..count {
        let pair = read_pair(site, before, input)?;
        before = Some(pair);
        pairs.push(pair)?;
    }
    Ok(pairs)
}

/// `tableswitch`.
#[tactic(auto, unfolding(code_model::specs::OperandReading::table_at))]
pub fn read_table(alloc: Global, site: Site, input: &mut Input) -> Result<Instruction, OperandError>
    requires { site.pc < 2 ^ 31 }
    ensures instruction { GivesOperand site.entry (λ its. (instruction_of its, input.new)) result
        (table_at (site_of site.entry) input.old) }
    ensures on { OnOk result (IsBehind input.old input.new) }
{
    read_padding(input)?;
    let otherwise = read_target(site, input)?;
    let low = read_s4(input)?;
    let high = read_s4(input)?;
    if low > high {
        return Err(OperandError::Operand);
    }
    let targets = read_targets(alloc, site, keys_between(low, high), input)?;
    Ok(Instruction::Tableswitch {
        otherwise,
        low,
        targets,
    })
}

/// `lookupswitch`.
#[tactic(auto, unfolding(code_model::specs::OperandReading::lookup_at))]
pub fn read_lookup(
    alloc: Global,
    site: Site,
    input: &mut Input,
) -> Result<Instruction, OperandError>
    requires { site.pc < 2 ^ 31 }
    ensures instruction { GivesOperand site.entry (λ its. (instruction_of its, input.new)) result
        (lookup_at (site_of site.entry) input.old) }
    ensures on { OnOk result (IsBehind input.old input.new) }
{
    read_padding(input)?;
    let otherwise = read_target(site, input)?;
    let count = input.u4()?;
    let pairs = read_pairs(alloc, site, count, input)?;
    Ok(Instruction::Lookupswitch { otherwise, pairs })
}
