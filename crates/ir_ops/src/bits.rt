//! Numbers of `width` bits in a `u64`, read without and with a sign.
ghost use Rattle.std.specs.Prelude.{◌≡◌, ◌+◌, ◌-◌, ◌^◌, ◌%◌, ◌<◌};
ghost use Rattle.ir_ops.specs.Residue.{IsWidth, residue, signed};

/// The greatest number of `width` bits.
#[inline]
pub fn all_ones(width: u32) -> u64
    requires { IsWidth width }
    ensures { result + 1 ≡ 2 ^ width }
{
    u64::MAX >> (64 - width)
}

/// The number whose one bit is the sign.
#[inline]
pub fn sign_bit(width: u32) -> u64
    requires { IsWidth width }
    ensures { result ≡ 2 ^ (width - 1) }
{
    1 << (width - 1)
}

/// The lowest `width` bits of a number.
#[inline]
pub fn low_bits(width: u32, number: u64) -> u64
    requires { IsWidth width }
    ensures { result ≡ number % 2 ^ width }
{
    number & all_ones(width)
}

/// What `width` bits mean when they are read with a sign.
#[inline]
pub fn with_sign(width: u32, a: u64) -> i64
    requires width { IsWidth width }
    requires bits { a < 2 ^ width }
    ensures { result ≡ signed width a }
{
    if a < sign_bit(width) {
        a as i64
    } else {
        -1 - (all_ones(width) - a) as i64
    }
}

/// The lowest `width` bits of a signed number in two's complement.
#[inline]
pub fn bits_of(width: u32, number: i64) -> u64
    requires { IsWidth width }
    ensures { result ≡ residue width number }
{
    low_bits(width, number.cast_unsigned())
}
