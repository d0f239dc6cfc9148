//! Bytes read from the front: an item is one number or one run of bytes (JVMS 4.1).

ghost use Rattle.std.specs.Prelude.{◌≡◌, ◌<◌, ◌+◌, ◌^◌, ◌==◌, length, IfOk, OnOk};
ghost use Rattle.jv_model.specs.Input.{whole_of, number_at, bytes_at};
ghost use Rattle.jv_types.specs.Reading.{GivesItem, IsFurther, part_at};

use byteorder::{BigEndian, ByteOrder};
use std::error::Error;
use std::fmt;
use std::marker::Model;

/// The item that begins at this byte, counted from 0, isn't whole. An item is one number or one run
/// of bytes (JVMS 4.1).
#[derive(Clone, Copy, Debug, PartialEq, Eq)]
pub struct Cut {
    pub at: u32,
}

impl fmt::Display for Cut {
    fn fmt<W: fmt::Write>(&self, f: &mut fmt::Formatter<W>) -> fmt::Result {
        write!(f, "the item at byte {} isn't whole", self.at)
    }
}

impl Error for Cut {}

/// The bytes that are still to be read, and the place of the first of them. Contracts see the
/// definitions' own `Input`. After an error nothing is said of it.
#[derive(Debug, Drop)]
pub struct Input<'a> {
    at: u32,
    bytes: &'a [u8],
}

impl<'a> Model for Input<'a> {
    ghost use Rattle.std.specs.Prelude.{◌+◌, ◌<◌, ◌^◌, length};
    ghost use Rattle.jv_model.specs.Input.{Input as ModelInput};

    ghost Value = { ModelInput };

    ghost view = { λ it. record { at = it.at; bytes = it.bytes.now } };

    // Each place in it has 32 bits, and so has its end.
    ghost invariant = { λ it. it.at + length it.bytes.now < 2 ^ 32 };
}

impl<'a> Input<'a> {
    /// The whole of the bytes, to be read from place 0.
    pub fn whole_of(bytes: &'a [u8]) -> Input<'a>
        requires { length bytes.now < 2 ^ 32 }
        ensures { result ≡ whole_of bytes.now }
    {
        Input { at: 0, bytes }
    }

    /// The place of the next byte.
    pub fn at(&self) -> u32
        ensures { result ≡ self.now.at }
    {
        self.at
    }

    /// Whether no bytes are left.
    pub fn is_empty(&self) -> bool
        ensures { result ≡ (length self.now.bytes == 0) }
    {
        self.bytes.is_empty()
    }

    /// The next run of so many bytes.
    pub fn run(&mut self, count: u32) -> Result<&'a [u8], Cut>
        ensures run { GivesItem (λ run. (run.now, self.new)) result (bytes_at count self.old) }
        ensures whole { IfOk result (λ run. length run.now ≡ count) }
        ensures left { OnOk result (length self.new.bytes + count ≡ length self.old.bytes) }
        ensures at { OnOk result (self.new.at ≡ self.old.at + count) }
    {
        let Some((run, rest)) = self.bytes.split_at_checked(count as usize) else {
            return Err(Cut { at: self.at });
        };
        self.at += count;
        self.bytes = rest;
        Ok(run)
    }

    /// The next run of so many bytes, to be read from its place on.
    pub fn part(&mut self, count: u32) -> Result<Input<'a>, Cut>
        ensures part { GivesItem (λ part. (part, self.new)) result (part_at count self.old) }
    {
        let at = self.at;
        let bytes = self.run(count)?;
        Ok(Input { at, bytes })
    }

    /// The next number of one byte, a `u1`.
    pub fn u1(&mut self) -> Result<u8, Cut>
        ensures number { GivesItem (λ number. (number, self.new)) result (number_at 1 self.old) }
        ensures further { OnOk result (IsFurther self.old self.new) }
    {
        let bytes = self.run(1)?;
        Ok(bytes[0])
    }

    /// The next number of two bytes, a `u2`.
    pub fn u2(&mut self) -> Result<u16, Cut>
        ensures number { GivesItem (λ number. (number, self.new)) result (number_at 2 self.old) }
        ensures further { OnOk result (IsFurther self.old self.new) }
    {
        let bytes = self.run(2)?;
        Ok(BigEndian::read_u16(bytes))
    }

    /// The next number of four bytes, a `u4`.
    pub fn u4(&mut self) -> Result<u32, Cut>
        ensures { GivesItem (λ number. (number, self.new)) result (number_at 4 self.old) }
    {
        let bytes = self.run(4)?;
        Ok(BigEndian::read_u32(bytes))
    }

    /// The next number of eight bytes.
    pub fn u8(&mut self) -> Result<u64, Cut>
        ensures { GivesItem (λ number. (number, self.new)) result (number_at 8 self.old) }
    {
        let bytes = self.run(8)?;
        Ok(BigEndian::read_u64(bytes))
    }
}
