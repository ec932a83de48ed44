// A mono MS block of five bytes.
use ms_block::Reading;
use ms_decode::decode_adpcm_ima_ms;
use repacking::repack_adpcm_ima_ms;
use std::{fmt, io};

pub(crate) fn show(rt: &impl Print) -> io::Result<()> {
    let block = [0u8, 0, 0, 0, 0x17];
    let mut samples = [1i16; 3];
    decode_adpcm_ima_ms(Reading::Strict, 1, &block, &mut samples).unwrap();
    let mut new = [1u8; 5];
    let changed = repack_adpcm_ima_ms(Reading::Strict, 1, &block, &mut new).unwrap();
    let what = if changed { "changed" } else { "the same" };
    let old = Bytes(&block);
    let new = Bytes(&new);
    let [a, b, c] = samples;
    println!(rt; "mono{old} decodes to {a}, {b}, {c} and repacks to{new}, {what}")
}

// Each in hex, with a space in front.
#[derive(Drop)]
struct Bytes<'a>(&'a [u8]);

impl fmt::Display for Bytes<'_> {
    fn fmt<W: fmt::Write>(&self, f: &mut fmt::Formatter<W>) -> fmt::Result {
        for byte in self.0 {
            write!(f, " {byte:02x}")?;
        }
        Ok(())
    }
}
