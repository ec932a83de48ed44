// A sample by both laws.
use std::io;

pub(crate) fn show(rt: &impl Print, sample: i16) -> io::Result<()> {
    let mu = g711::encode_ulaw(sample);
    let a = g711::encode_alaw(sample);
    let from_mu = g711::decode_ulaw(mu);
    let from_a = g711::decode_alaw(a);
    println!(rt; "{sample}: mu-law 0x{mu:02x} is {from_mu}, A-law 0x{a:02x} is {from_a}")
}
