//! Numbers as bytes, the highest first (JVMS 4).

ghost use Rattle.std.specs.Prelude.{◌≡◌, ◌++◌, OnOk};
ghost use Rattle.std.specs.Int.{w16, w32, cast_unsigned};
ghost use Rattle.jv_model.specs.ClassBytes.{u1, u2, u4};
ghost use Rattle.assembler_model.specs.InstructionBytes.{s1, s2, s4};

use jv_types::{Bytes, NoMemory};

/// Adds a number of one byte.
pub fn push_u1(bytes: &mut Bytes, number: u8) -> Result<(), NoMemory>
    ensures { OnOk result (bytes.new.items ≡ bytes.old.items ++ u1 number) }
{
    bytes.append(&[number])
}

/// Adds the lowest two bytes of a number.
pub fn push_u2(bytes: &mut Bytes, number: u32) -> Result<(), NoMemory>
    ensures { OnOk result (bytes.new.items ≡ bytes.old.items ++ u2 number) }
{
    let [_, _, high, low] = number.to_be_bytes();
    bytes.append(&[high, low])
}

/// Adds a number of four bytes.
pub fn push_u4(bytes: &mut Bytes, number: u32) -> Result<(), NoMemory>
    ensures { OnOk result (bytes.new.items ≡ bytes.old.items ++ u4 number) }
{
    bytes.append(&number.to_be_bytes())
}

/// Adds a number of one byte with a sign.
pub fn push_s1(bytes: &mut Bytes, number: i8) -> Result<(), NoMemory>
    ensures { OnOk result (bytes.new.items ≡ bytes.old.items ++ s1 number) }
{
    bytes.append(&number.to_be_bytes())
}

/// Two's complement in 16 bits. A number from 2^16 on stays, and one below -2^16 is 0.
fn complement_of_16(number: i64) -> u64
    ensures { result ≡ cast_unsigned w16 number }
{
    if number < 0 {
        return (number + 0x1_0000).max(0) as u64;
    }
    number as u64
}

/// Two's complement in 32 bits. A number from 2^32 on stays, and one below -2^32 is 0.
fn complement_of_32(number: i64) -> u64
    ensures { result ≡ cast_unsigned w32 number }
{
    if number < 0 {
        return (number + 0x1_0000_0000).max(0) as u64;
    }
    number as u64
}

/// Adds the lowest two bytes of a number with a sign.
pub fn push_s2(bytes: &mut Bytes, number: i64) -> Result<(), NoMemory>
    ensures { OnOk result (bytes.new.items ≡ bytes.old.items ++ s2 number) }
{
    let [_, _, _, _, _, _, high, low] = complement_of_16(number).to_be_bytes();
    bytes.append(&[high, low])
}

/// Adds the lowest four bytes of a number with a sign.
pub fn push_s4(bytes: &mut Bytes, number: i64) -> Result<(), NoMemory>
    ensures { OnOk result (bytes.new.items ≡ bytes.old.items ++ s4 number) }
{
    let [_, _, _, _, first, second, third, fourth] = complement_of_32(number).to_be_bytes();
    bytes.append(&[first, second, third, fourth])
}
