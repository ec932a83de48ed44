// One nibble, decoded and encoded.
use crate::state::{Shown, make};
use adpcm_ima::AdpcmImaState;
use std::io;

pub(crate) fn show(rt: &impl Print) -> io::Result<()> {
    show_decoded(rt)?;
    show_encoded(rt)
}

fn show_decoded(rt: &impl Print) -> io::Result<()> {
    for (predictor, index, nibble) in [(0, 0, 7), (0, 0, 15), (0, 0, 8), (0, 255, 0), (0, 88, 7)] {
        print_decode(rt, make(predictor, index), nibble)?;
    }
    Ok(())
}

fn show_encoded(rt: &impl Print) -> io::Result<()> {
    for (predictor, index, sample) in [(0, 0, 0), (0, 0, -1), (0, 0, 32767), (32758, 0, 32767)] {
        print_encode(rt, make(predictor, index), sample)?;
    }
    Ok(())
}

fn print_decode(rt: &impl Print, from: AdpcmImaState, nibble: u8) -> io::Result<()> {
    let decoded = from.decode(nibble);
    let from = Shown(from);
    let sample = decoded.sample;
    let next = decoded.state.step_index;
    println!(rt; "decode {from}: {nibble} gives {sample}, index {next}")
}

fn print_encode(rt: &impl Print, from: AdpcmImaState, sample: i16) -> io::Result<()> {
    let encoded = from.encode(sample);
    let from = Shown(from);
    let nibble = encoded.nibble;
    let next = Shown(encoded.state);
    println!(rt; "encode {from}: {sample} gives {nibble} and {next}")
}
