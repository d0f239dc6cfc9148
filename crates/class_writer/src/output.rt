//! The bytes of a class file, written from the front. Its numbers are big-endian (JVMS 4).

ghost use Rattle.std.specs.Prelude.{◌≡◌, ◌++◌, [], OnOk};
ghost use Rattle.jv_model.specs.ClassBytes.{u1, u2, u4, u8};
ghost use Rattle.jv_model.specs.ClassLimits.{over};
ghost use Rattle.jv_types.specs.Refusal.{limited_of};
ghost use Rattle.class_writer.specs.Written.{Appends, IsCount};

use crate::error::WriteClassError;
use byteorder::{BigEndian, ByteOrder};
use jv_types::{Bytes, List, NoMemory, What};
use std::alloc::Global;
use std::marker::Model;

/// The most items that a count of two bytes says.
const MOST_COUNTED: u64 = 65_535;

/// The bytes so far. After an error nothing is said of them.
#[derive(Drop)]
pub struct Output {
    bytes: Bytes,
}

impl Model for Output {
    ghost use Rattle.std.specs.Prelude.{ℕ, List};

    ghost Value = { List ℕ };

    ghost view = { λ it. it.bytes.items };
}

impl Output {
    /// No bytes yet.
    pub fn new(alloc: Global) -> Output
        ensures { result ≡ [] }
    {
        Output {
            bytes: List::new(alloc),
        }
    }

    /// The bytes that were written.
    pub fn into_bytes(self) -> Bytes
        ensures { result.items ≡ self }
    {
        self.bytes
    }

    /// Writes a run of bytes as it is.
    pub fn run(&mut self, bytes: &[u8]) -> Result<(), NoMemory>
        ensures { OnOk result (self.new ≡ self.old ++ bytes.now) }
    {
        self.bytes.append(bytes)
    }

    /// Writes a number of one byte, a `u1`.
    pub fn u1(&mut self, number: u8) -> Result<(), NoMemory>
        ensures { OnOk result (self.new ≡ self.old ++ u1 number) }
    {
        self.run(&[number])
    }

    /// Writes a number of two bytes, a `u2`.
    pub fn u2(&mut self, number: u16) -> Result<(), NoMemory>
        ensures { OnOk result (self.new ≡ self.old ++ u2 number) }
    {
        let mut bytes = [0; 2];
        BigEndian::write_u16(&mut bytes, number);
        self.run(&bytes)
    }

    /// Writes a number of four bytes, a `u4`.
    pub fn u4(&mut self, number: u32) -> Result<(), NoMemory>
        ensures { OnOk result (self.new ≡ self.old ++ u4 number) }
    {
        let mut bytes = [0; 4];
        BigEndian::write_u32(&mut bytes, number);
        self.run(&bytes)
    }

    /// Writes a number of eight bytes.
    pub fn u8(&mut self, number: u64) -> Result<(), NoMemory>
        ensures { OnOk result (self.new ≡ self.old ++ u8 number) }
    {
        let mut bytes = [0; 8];
        BigEndian::write_u64(&mut bytes, number);
        self.run(&bytes)
    }

    /// Writes the count of a list, a `u2`, unless the list is too long for it.
    pub fn count(&mut self, what: What, n: u64) -> Result<(), WriteClassError>
        ensures { Appends result self.old self.new (u2 n) (over (limited_of what) n) }
    {
        let count = count_of(what, n)?;
        self.u2(count)?;
        Ok(())
    }
}

/// The number of items as a count of two bytes, unless they are too many for it.
pub fn count_of(what: What, n: u64) -> Result<u16, WriteClassError>
    ensures { IsCount result (limited_of what) n }
{
    if n > MOST_COUNTED {
        return Err(WriteClassError::Limit { what, n });
    }
    Ok(n as u16)
}
