//! How many bytes an instruction takes (JVMS 6.5). Where its labels stand doesn't tell it.

ghost use Rattle.std.specs.Prelude.{◌≡◌, ◌+◌, ◌-◌, ◌*◌, ◌%◌, ◌<◌, ◌≤◌, ◌^◌, ℕ, IfOk, length, nat_lt, option_map};
ghost use Rattle.assembler_model.specs.CodeLines.{pc_behind};
ghost use Rattle.assembler_model.specs.InstructionBytes.{constant_bytes, increment_bytes, is_byte, local_bytes, operation_bytes};
ghost use Rattle.asm_lines.specs.Terms.{kind_of, operation_of};
ghost use Rattle.asm_parts.specs.Entries.{entry_of};
ghost use Rattle.asm_parts.specs.Pools.{entries_in, IsPool};
ghost use Rattle.asm_code.specs.Labels.{member_size, no_target};

use asm_lines::term::{Operation, ReferenceKind};
use asm_parts::entry::Entry;
use asm_parts::pool::index_of;
use asm_parts::pool_entries::Pool;
use asm_pool::needs::constant_entry;
use jv_types::NoMemory;

/// Whether the number of a local needs two bytes, and so `wide`.
pub fn is_wide(local: u16) -> bool
    ensures { result ≡ nat_lt 255 local }
{
    local > 0xff
}

/// Whether one byte holds a number.
pub fn is_byte(value: i16) -> bool
    ensures { result ≡ is_byte value }
{
    -0x80 <= value && value <= 0x7f
}

/// The zeros behind the opcode of a switch at a pc, up to a multiple of four.
pub fn padding(pc: u32) -> u32
    ensures { result ≡ 3 - pc % 4 }
{
    3 - pc % 4
}

/// The bytes of an instruction with a local.
fn local_size(local: u16) -> u64
    ensures size { (opcode : ℕ) → result ≡ length (local_bytes opcode local) }
    ensures small { result ≤ 4 }
{
    if is_wide(local) { 4 } else { 2 }
}

/// The bytes of `iinc`.
fn increment_size(local: u16, value: i16) -> u64
    ensures { result ≡ length (increment_bytes local value) }
{
    if is_wide(local) || !is_byte(value) {
        6
    } else {
        3
    }
}

/// The bytes of `ldc`, or of `ldc_w` where the index needs it.
fn constant_size(index: u32) -> u64
    ensures { result ≡ length (constant_bytes index) }
{
    if index > 0xff { 3 } else { 2 }
}

/// The bytes of an instruction with a reference: `invokeinterface` has a count behind the index.
fn member_size(kind: ReferenceKind) -> u64
    ensures { result ≡ member_size (kind_of kind) }
{
    match kind {
        ReferenceKind::InterfaceMethod => 5,
        _ => 3,
    }
}

/// The bytes of a tableswitch at a pc, with so many labels.
fn table_size(pc: u32, labels: u32) -> u64
    ensures { result ≡ 13 + (3 - pc % 4) + 4 * labels }
{
    13 + u64::from(padding(pc)) + 4 * u64::from(labels)
}

/// The bytes of a lookupswitch at a pc, with so many rows.
fn lookup_size(pc: u32, rows: u32) -> u64
    ensures { result ≡ 9 + (3 - pc % 4) + 8 * rows }
{
    9 + u64::from(padding(pc)) + 8 * u64::from(rows)
}

/// The bytes of an instruction at a pc.
#[tactic(auto, unfolding(assembler_model::specs::InstructionBytes::operation_bytes))]
fn size_of(pool: &Pool<'_>, pc: u32, operation: &Operation<'_>) -> u64
    requires { IsPool pool.now }
    ensures size { result ≡ length (operation_bytes (entries_in pool.now) no_target pc (operation_of operation.now)) }
    ensures small { result < 2 ^ 36 }
{
    match operation {
        Operation::Plain(_) => 1,
        Operation::Byte(..) | Operation::NewArray(_) => 2,
        Operation::Short(..)
        | Operation::Branch(..)
        | Operation::Class(..)
        | Operation::LoadLong(_) => 3,
        Operation::WideBranch(..) => 5,
        Operation::Local(_, local) => local_size(*local),
        Operation::Member(_, kind, _) => member_size(*kind),
        Operation::LoadConstant(constant) => {
            constant_size(index_of(pool, constant_entry(*constant)))
        }
        Operation::Increment(local, value) => increment_size(*local, *value),
        Operation::TableSwitch { labels, .. } => table_size(pc, labels.len()),
        Operation::LookupSwitch { rows, .. } => lookup_size(pc, rows.len()),
    }
}

/// The pc behind an instruction, where its own is known and 32 bits hold the pc behind it.
pub fn pc_behind(
    pool: &Pool<'_>,
    operation: &Operation<'_>,
    pc: Option<u32>,
) -> Result<Option<u32>, NoMemory>
    requires { IsPool pool.now }
    ensures { IfOk result (λ behind.
        behind ≡ option_map (pc_behind (entries_in pool.now) (operation_of operation.now)) pc) }
{
    let Some(pc) = pc else {
        return Ok(None);
    };
    match u32::try_from(u64::from(pc) + size_of(pool, pc, operation)) {
        Ok(behind) => Ok(Some(behind)),
        Err(_) => Err(NoMemory),
    }
}
