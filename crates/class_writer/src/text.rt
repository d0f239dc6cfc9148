//! A text in modified UTF-8 (JVMS 4.4.7).

ghost use Rattle.std.specs.Prelude.{◌≡◌, ◌++◌, length, OnOk};
ghost use Rattle.jv_model.specs.ModifiedUtf8.{unit_bytes, text_bytes};
ghost use Rattle.jv_model.specs.ClassBytes.{text_run};
ghost use Rattle.jv_model.specs.ClassLimits.{over};
ghost use Rattle.jv_model.specs.Refusal.{text_run_bytes};
ghost use Rattle.class_writer.specs.Written.{Appends};

use crate::error::WriteClassError;
use crate::output::Output;
use jv_types::{NoMemory, Text, What};

/// How many bytes a unit takes.
fn unit_length(unit: u16) -> u64
    ensures { result ≡ length (unit_bytes unit) }
{
    match unit {
        0x01..=0x7f => 1,
        0..=0x7ff => 2,
        _ => 3,
    }
}

/// How many bytes the units take.
fn text_length(units: &[u16]) -> u64
    ensures { result ≡ length (text_bytes units.now) }
{
    let mut total = 0;
    for unit in units {
        total += unit_length(*unit);
    }
    total
}

fn write_unit(out: &mut Output, unit: u16) -> Result<(), NoMemory>
    ensures { OnOk result (out.new ≡ out.old ++ unit_bytes unit) }
{
    let last = (0x80 + unit % 0x40) as u8;
    match unit {
        0x01..=0x7f => out.u1(unit as u8),
        0..=0x7ff => out.run(&[(0xc0 + unit / 0x40) as u8, last]),
        _ => out.run(&[
            (0xe0 + unit / 0x1000) as u8,
            (0x80 + unit / 0x40 % 0x40) as u8,
            last,
        ]),
    }
}

fn write_units(out: &mut Output, units: &[u16]) -> Result<(), NoMemory>
    ensures { OnOk result (out.new ≡ out.old ++ text_bytes units.now) }
{
    for unit in units {
        write_unit(out, *unit)?;
    }
    Ok(())
}

/// Writes a text behind the number of its bytes, unless they are too many for it.
pub fn write_text(out: &mut Output, text: &Text) -> Result<(), WriteClassError>
    ensures { Appends result out.old out.new (text_run (text_bytes text.now.items))
        (over text_run_bytes (length (text_bytes text.now.items))) }
{
    let units = text.as_slice();
    // The length stands first, so it is counted before anything is written.
    out.count(What::Utf8, text_length(units))?;
    write_units(out, units)?;
    Ok(())
}
