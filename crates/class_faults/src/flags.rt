//! Access flags of classes and members (JVMS tables 4.1-B, 4.5-A and 4.6-A).

ghost use Rattle.std.specs.Prelude.{◌≡◌};
ghost use Rattle.world_model.specs.World.{has_flag};

pub const ACC_PRIVATE: u16 = 0x0002;

pub const ACC_STATIC: u16 = 0x0008;

pub const ACC_FINAL: u16 = 0x0010;

pub const ACC_NATIVE: u16 = 0x0100;

pub const ACC_INTERFACE: u16 = 0x0200;

pub const ACC_ABSTRACT: u16 = 0x0400;

/// Whether a flag is among some flags.
pub fn has_flag(flags: u16, flag: u16) -> bool
    ensures { result ≡ has_flag flag flags }
{
    flags & flag != 0
}
