// A number taken apart and put together: the two bytes of 16 bits, and the two nibbles of a byte.
#![tactic(auto)]

ghost use Rattle.std.specs.Prelude.{◌≡◌, ◌+◌, ◌*◌, ◌/◌, ◌%◌, ◌<◌};
ghost use Rattle.halves.specs.Halves.{bits_of, from_halves};

// The number that two bytes are, the high one first.
pub fn join(high: u8, low: u8) -> usize
    ensures { result ≡ high * 256 + low }
{
    usize::from(u16::from_be_bytes([high, low]))
}

// The signed number that they are.
pub fn from_halves(high: u8, low: u8) -> i16
    ensures { result ≡ from_halves high low }
{
    i16::from_be_bytes([high, low])
}

// The 16 bits of a signed number, two's complement.
pub fn bits_of(x: i16) -> u32
    ensures { (result ≡ bits_of x) × (result < 65536) }
{
    u32::from(x.cast_unsigned())
}

// The lower of the two bytes that 16 bits are. (`to_le_bytes` gives both, and says it of lists of bytes; the definitions say `% 256` and `/ 256`.)
pub fn low_half(bits: u32) -> u8
    ensures { result ≡ bits % 256 }
{
    (bits % 256) as u8
}

// The upper one.
pub fn high_half(bits: u32) -> u8
    ensures { result ≡ bits / 256 % 256 }
{
    (bits / 256 % 256) as u8
}

// The lower half of a byte.
pub fn low_nibble(byte: u8) -> u32
    ensures { result ≡ byte % 16 }
{
    (byte & 15) as u32
}

// The upper half.
pub fn high_nibble(byte: u8) -> u32
    ensures { result ≡ byte / 16 }
{
    (byte >> 4) as u32
}

// A byte of two nibbles. Only the lowest four bits of each count.
pub fn pack(low: u32, high: u32) -> u8
    ensures { result ≡ 16 * (high % 16) + low % 16 }
{
    ((high & 15) << 4 | low & 15) as u8
}
