//! A class file (JVMS 4.1).

ghost use Rattle.std.specs.Prelude.{◌≡◌, ℕ, MatchResult, IfOk, Some, length};
ghost use Rattle.jv_model.specs.Refusal.{Limited, pool_entries};
ghost use Rattle.jv_model.specs.Profile.{IsInProfile, SpellsClass};
ghost use Rattle.jv_model.specs.ClassBytes.{class_bytes};
ghost use Rattle.jv_model.specs.ClassLimits.{over, first_limit};
ghost use Rattle.jv_types.specs.ClassData.{class_data_of};
ghost use Rattle.class_writer.specs.Written.{Appends, IsWritten, WriteFails, limit_told};

use crate::attribute::write_attributes;
use crate::error::WriteClassError;
use crate::interface::write_interfaces;
use crate::output::{Output, count_of};
use crate::table::write_table;
use jv_types::{Bytes, ClassData, What};
use std::alloc::Global;

/// What each class file begins with.
const MAGIC: u32 = 0xcafe_babe;

fn write_file(out: &mut Output, file: &ClassData) -> Result<(), WriteClassError>
    ensures { Appends result out.old out.new (class_bytes (class_data_of file.now))
        (first_limit (class_data_of file.now)) }
{
    out.u4(MAGIC)?;
    out.u2(file.minor)?;
    out.u2(file.major)?;
    write_table(out, What::Pool, &file.pool)?;
    out.u2(file.flags)?;
    out.u2(file.this_class)?;
    out.u2(file.super_class)?;
    write_interfaces(out, &file.interfaces)?;
    write_table(out, What::Fields, &file.fields)?;
    write_table(out, What::Methods, &file.methods)?;
    write_attributes(out, &file.attributes)?;
    Ok(())
}

/// The bytes of a class file (JVMS 4.1): the one spelling of the data.
///
/// The error is the first list, in writing order, that is too long for its count. That of the pool,
/// which comes first of all, is told before any memory is asked for.
pub fn write_class(alloc: Global, file: &ClassData) -> Result<Bytes, WriteClassError>
    // It is written exactly where no list is too long, unless memory runs out.
    ensures written { MatchResult result (λ bytes. IsWritten (class_data_of file.now) bytes.items)
        (λ error. WriteFails error (first_limit (class_data_of file.now))) }

    // What is written of data in the profile is a class file.
    ensures spelled { IfOk result (λ bytes. IsInProfile (class_data_of file.now)
        → SpellsClass bytes.items (class_data_of file.now)) }

    // A pool that is too long is told, however little memory there is.
    ensures early { (limit : Limited × ℕ)
        → over pool_entries (length (class_data_of file.now).pool) ≡ Some limit
        → MatchResult result (λ _. ⊥) (λ error. limit_told error ≡ Some limit) }
{
    count_of(What::Pool, u64::from(file.pool.len()))?;
    let mut out = Output::new(alloc);
    write_file(&mut out, file)?;
    Ok(out.into_bytes())
}
