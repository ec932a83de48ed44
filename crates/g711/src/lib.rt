// The two companding laws of ITU-T G.711, with the Rust's names. They stay two pairs of calls, since C has both, and since their formulas differ: what they
// share is `code_word`.
#![tactic(auto)]

mod alaw;
mod ulaw;

ghost use Rattle.std.specs.Prelude.{◌≡◌, ◌<◌};
ghost use Rattle.std.specs.Int.Bits.{bit_xor};
ghost use Rattle.g711.specs.Law.{joined};

pub use alaw::{decode_alaw, encode_alaw};
pub use ulaw::{decode_ulaw, encode_ulaw};

// Sign, segment and four bits make u; the xor gives the code.
fn code_word(linear: i16, segment: u32, bits: u32, mask: u32) -> u8
    requires { (segment < 8) × (bits < 16) × (mask < 256) }
    ensures { result ≡ bit_xor (joined linear segment bits) mask }
{
    let word = (segment << 4) | bits;
    let u = if linear < 0 { word | 0x80 } else { word };
    (u ^ mask) as u8
}
