// Numbers made of bits, for any width. Nothing here knows of Link 1.

#![tactic(auto)]

ghost use Rattle.std.specs.Prelude.{◌≡◌, ◌+◌, ◌*◌, ◌≤◌, ◌<◌, ◌^◌, ltb, length};
ghost use Rattle.std.specs.Int.Signed.{mag};
ghost use Rattle.bits.specs.Numbers.{field_of, placed_of};
ghost use Rattle.bits.specs.Octets.{bit_at};
ghost use Rattle.bits.specs.Tests.{pick};
ghost use Rattle.bits.specs.Twos.{signed_of, unsigned_of};

// The field of `width` bits whose lowest has weight 2^low.
pub fn field(word: u64, low: u32, width: u32) -> u64
    requires { low + width < 64 }
    ensures { result ≡ field_of word low width }
{
    (word >> low) & ((1u64 << width) - 1)
}

// The word, which has `low` bits, with a value of `width` bits put above them.
pub fn place(word: u64, low: u32, width: u32, value: u64) -> u64
    requires { (word < 2 ^ low) × (value < 2 ^ width) × (low + width < 64) }
    ensures { (result ≡ placed_of word low value) × (result < 2 ^ (low + width)) }
{
    word | (value << low)
}

// Bit n of a run of octets, counted from 1: bit 1 stands in the most significant place of the first octet.
pub fn bit(octets: &[u8], n: usize) -> u8
    requires { (1 ≤ n) × (n ≤ 8 * length octets.now) }
    ensures { result ≡ bit_at octets.now n }
{
    let at = n - 1;
    (octets[at / 8] >> (7 - at % 8)) & 1
}

// The bits n as two's complement; `sign` is the weight of the sign bit.
pub fn signed(n: u64, sign: u64) -> i16
    requires { (n < sign * 2) × (sign ≤ 32768) }
    ensures { result ≡ signed_of sign n }
{
    if n < sign {
        n as i16
    } else {
        -1 - ((sign * 2 - 1 - n) as i16)
    }
}

// How far z is from 0 or from -1, on its own side: n both of n and of -1 - n.
pub fn magnitude(z: i16) -> u64
    ensures { result ≡ mag z }
{
    if z < 0 { (-1 - z) as u64 } else { z as u64 }
}

// The bits of z in two's complement, if its magnitude is below `sign`.
pub fn unsigned(z: i16, sign: u64) -> u64
    requires { (mag z < sign) × (sign ≤ 32768) }
    ensures { result ≡ unsigned_of sign z }
{
    let m = magnitude(z);
    if z < 0 { sign * 2 - 1 - m } else { m }
}

// The bits of a signed field, or a number that is too wide for it where z is out of its range.
pub fn signed_bits(z: i16, sign: u64) -> u64
    requires { sign ≤ 32768 }
    ensures { result ≡ pick (ltb (mag z) sign) (unsigned_of sign z) (sign * 2) }
{
    if magnitude(z) < sign {
        unsigned(z, sign)
    } else {
        sign * 2
    }
}
