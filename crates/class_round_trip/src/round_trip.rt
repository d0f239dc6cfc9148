//! The two round trips.

ghost use Rattle.std.specs.Prelude.{◌≡◌, IfOk, IfErr};
ghost use Rattle.jv_model.specs.ClassBytes.{class_bytes};
ghost use Rattle.jv_model.specs.Profile.{IsClassFile, SpellsClass};
ghost use Rattle.jv_types.specs.ClassData.{class_data_of};
ghost use Rattle.class_round_trip.specs.RoundTrip.{IsUnread, IsUnwritten, IsStarvedOrLong};

use crate::error::RoundTripError;
use class_reader::read_class;
use class_writer::write_class;
use jv_types::{Bytes, ClassData};
use std::alloc::Global;

/// The bytes that are written of what a class file says (JVMS 4.1), which are its own.
///
/// The error is that of reading it. What was read has no list that is too long, so of writing only
/// want of memory is left.
pub fn written_again(alloc: Global, bytes: &[u8]) -> Result<Bytes, RoundTripError>
    ensures same { IfOk result (λ again. again.items ≡ bytes.now) }
    ensures error { IfErr result (λ error. IsUnread error bytes.now) }
{
    let file = read_class(alloc, bytes)?;
    let again = write_class(alloc, &file)?;
    Ok(again)
}

/// The data that are read of what is written of class data, which are the same where the data are
/// those of a class file.
///
/// The error is that of writing the data, or of reading their bytes. Of a class file's data only
/// want of memory, or more bytes than a class file may have, is an error.
pub fn read_again(alloc: Global, file: &ClassData) -> Result<ClassData, RoundTripError>
    ensures same { IsClassFile (class_data_of file.now)
        → IfOk result (λ again. class_data_of again ≡ class_data_of file.now) }

    // Data of no class file are never answered: what is answered was read of the bytes.
    ensures found { IfOk result (λ again.
        SpellsClass (class_bytes (class_data_of file.now)) (class_data_of again)) }
    ensures error { IfErr result (λ error. IsUnwritten error (class_data_of file.now)) }
    ensures only { IsClassFile (class_data_of file.now)
        → IfErr result (λ error. IsStarvedOrLong error (class_data_of file.now)) }
{
    let bytes = write_class(alloc, file)?;
    let again = read_class(alloc, bytes.as_slice())?;
    Ok(again)
}
