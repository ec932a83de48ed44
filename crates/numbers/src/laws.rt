// The two laws. The last number is an easy slip: negated and not complemented, -4 would go to another code.
use g711::{decode_alaw, decode_ulaw, encode_ulaw};
use std::io;

pub(crate) fn show(rt: &impl Print) -> io::Result<()> {
    print_decoded(rt, "mu-law", 0x7f, |code| decode_ulaw(code))?;
    print_encoded(rt, 0)?;
    print_decoded(rt, "A-law", 0xd5, |code| decode_alaw(code))?;
    print_encoded(rt, -4)
}

// The decoder comes in a closure, since no proof is made of a function of another crate as a value.
fn print_decoded<D: Fn(u8) -> i16 + Drop>(
    rt: &impl Print,
    law: &str,
    code: u8,
    decode: D,
) -> io::Result<()>
    requires { D.pre decode code }
{
    let sample = decode(code);
    println!(rt; "{law} 0x{code:02x} decodes to {sample}")
}

fn print_encoded(rt: &impl Print, sample: i16) -> io::Result<()> {
    let code = encode_ulaw(sample);
    println!(rt; "mu-law: {sample} encodes to 0x{code:02x}")
}
