//! One file.

ghost use Rattle.std.specs.Prelude.{◌≡◌, ◌≤◌, length, IfOk};
ghost use Rattle.jv_model.specs.Limits.{most_file_bytes};
ghost use Rattle.load_model.specs.Loading.{file_at};
ghost use Rattle.class_loader.specs.Outside.{read};
ghost use Rattle.class_loader.specs.Loads.{IsLoaded};

use crate::stop::Stop;
use jv_outer::Files;
use jv_types::{Bytes, Cause, MOST_FILE_BYTES, What};
use std::alloc::Global;

/// Reads the file of this name, which has no more bytes than a file may have, for a class of an
/// item. One that has more is refused there.
pub fn read_file<F: Files>(
    alloc: Global,
    files: &mut F,
    name: &str,
    item: u32,
    sub: u32,
) -> Result<Bytes, Stop>
    ensures loaded { IsLoaded (λ bytes. bytes.items) result
        (read F.folder F.asked F.faults files.old files.new)
        (λ folder. file_at folder name.now most_file_bytes item sub) }
    ensures folder { F.folder files.new ≡ F.folder files.old }
    ensures within { IfOk result (λ bytes. length bytes.items ≤ most_file_bytes) }
{
    let bytes = files.read(alloc, name, MOST_FILE_BYTES)?;
    let count = u64::from(bytes.len());
    if count > MOST_FILE_BYTES {
        let what = What::File;
        let cause = Cause::Limit { what, n: count };
        return Err(Stop::Refused { item, sub, cause });
    }
    Ok(bytes)
}
