//! The constant pool (JVMS 4.4), filled in the order of first need.

ghost use Rattle.std.specs.Prelude.{◌≡◌, None, true, IfOk};
ghost use Rattle.text_model.specs.LineFaults.{first_fault};
ghost use Rattle.assembler_model.specs.AssemblerPool.{entries_of, pool_faults};
ghost use Rattle.asm_parts.specs.Faults.{either, told_by};
ghost use Rattle.asm_parts.specs.Pools.{entries_in, IsPool};
ghost use Rattle.asm_pool.specs.Needs.{needs_of};
ghost use Rattle.asm_pool.specs.Near.{AreNear, needs_near};

use crate::need::Need;
use asm_parts::fault::note_where;
use asm_parts::first_fault::FirstFault;
use asm_parts::pool::{empty_pool, is_too_far, need};
use asm_parts::pool_entries::Pool;
use jv_types::{LineKind, NoMemory};
use std::alloc::Global;

/// The pool that these needs make: each entry behind its parts, and each once.
#[tactic(auto, unfolding(assembler_model::specs::AssemblerPool::entries_of))]
pub fn fill<'a>(alloc: Global, needs: &[Need<'a>]) -> Result<Pool<'a>, NoMemory>
    ensures pool { IfOk result (λ pool. IsPool pool) }
    ensures entries { IfOk result (λ pool. entries_in pool ≡ entries_of (needs_of needs.now)) }
{
    let mut pool = empty_pool(alloc);
    for item in needs {
        need(&mut pool, item.entry)?;
    }
    Ok(pool)
}

/// Notes each line that needs an index which two bytes don't hold.
pub fn note_far(pool: &Pool<'_>, needs: &[Need<'_>], first: &mut FirstFault)
    requires { IsPool pool.now }
    ensures told { told_by first.new ≡ either (told_by first.old)
        (first_fault (pool_faults (entries_in pool.now) (needs_of needs.now))) }
    ensures near { told_by first.new ≡ None → entries_in pool.now ≡ entries_of (needs_of needs.now)
        → AreNear (entries_in pool.now) }
    ensures needed { told_by first.new ≡ None
        → needs_near (entries_in pool.now) (needs_of needs.now) ≡ true }
{
    for item in needs {
        let is_far = is_too_far(pool, item.entry);
        note_where(first, is_far, item.line, LineKind::Range);
    }
}
