//! Conversions, which keep the low bits of a number. `i2l` is Rust's own `i64::from`.

ghost use Rattle.std.specs.Prelude.{◌≡◌};
ghost use Rattle.std.specs.Int.{w32, int_wrap};
ghost use Rattle.machine_model.specs.Arithmetic.{as_byte, as_char, as_short};

/// The result of `l2i`: the int of the low 32 bits.
pub fn low_int(n: i64) -> i32
    ensures { result ≡ int_wrap w32 n }
{
    ((n.cast_unsigned() % 0x1_0000_0000) as u32).cast_signed()
}

/// The result of `i2b`: the low 8 bits, with their sign.
pub fn to_byte(n: i32) -> i32
    ensures { result ≡ as_byte n }
{
    i32::from(((n.cast_unsigned() % 0x100) as u8).cast_signed())
}

/// The result of `i2c`: the low 16 bits, without a sign.
pub fn to_char(n: i32) -> i32
    ensures { result ≡ as_char n }
{
    (n.cast_unsigned() % 0x1_0000) as i32
}

/// The result of `i2s`: the low 16 bits, with their sign.
pub fn to_short(n: i32) -> i32
    ensures { result ≡ as_short n }
{
    i32::from(((n.cast_unsigned() % 0x1_0000) as u16).cast_signed())
}
