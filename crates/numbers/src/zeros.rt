// Ima4 blocks whose nibbles are all 0. The last two numbers are an easy slip: lowered before it is compared with the header's 88, an
// index of 200 would keep its state, as 88 does.
use crate::state::{Shown, make};
use adpcm_ima::AdpcmImaState;
use ima4_decode::decode_adpcm_ima_ima4;
use std::io;

pub(crate) fn show(rt: &impl Print) -> io::Result<()> {
    for predictor in [100, 127, 128, -128] {
        zero(rt, make(predictor, 0))?;
    }
    header_88(rt, make(100, 88))?;
    header_88(rt, make(100, 200))
}

fn zero(rt: &impl Print, from: AdpcmImaState) -> io::Result<()> {
    let block = [0u8; 34];
    let mut samples = [1i16; 64];
    decode_adpcm_ima_ima4(&block, from, &mut samples).unwrap();
    let from = Shown(from);
    let first = samples[0];
    let alike = samples.iter().filter(|x| **x == first).count();
    println!(rt; "all-zero ima4 block: from {from} {alike} samples of {first}")
}

fn header_88(rt: &impl Print, from: AdpcmImaState) -> io::Result<()> {
    let mut block = [0u8; 34];
    block[1] = 88;
    let mut samples = [1i16; 64];
    decode_adpcm_ima_ima4(&block, from, &mut samples).unwrap();
    let from = Shown(from);
    let first = samples[0];
    println!(rt; "ima4 block with header (0,88): from {from} first sample {first}")
}
