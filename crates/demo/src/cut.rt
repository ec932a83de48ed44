// Two ima4 blocks that were encoded as one run and are decoded apart. The second one's header has no room
// for the low seven bits of the predictor: a decoder that is given the state has them, one that starts
// from a zeroed state has not, and its samples move. An index of the run has it too.
ghost use Rattle.std.specs.Prelude.{◌<◌, ◌≤◌, length};

use adpcm_ima::AdpcmImaState;
use ima4_decode::decode_adpcm_ima_ima4_run;
use ima4_encode::encode_adpcm_ima_ima4_run;
use seek::{decode_adpcm_ima_ima4_from, index_adpcm_ima_ima4};
use std::{array, io};

pub(crate) fn show(rt: &impl Print) -> io::Result<()> {
    let zeroed = AdpcmImaState::new();
    let mut bytes = [0u8; 68];
    encode_adpcm_ima_ima4_run(&wave(), zeroed, &mut bytes).unwrap();
    let mut whole = [0i16; 128];
    decode_adpcm_ima_ima4_run(&bytes, zeroed, &mut whole).unwrap();
    decode_apart(rt, &bytes, &whole[64..])?;
    decode_by_index(rt, &bytes, &whole[64..])
}

// `second` is what the second block decodes to in the run that is not cut.
fn decode_apart(rt: &impl Print, bytes: &[u8; 68], second: &[i16]) -> io::Result<()> {
    let zeroed = AdpcmImaState::new();
    let mut samples = [0i16; 64];
    let state = decode_adpcm_ima_ima4_run(&bytes[..34], zeroed, &mut samples).unwrap();
    decode_adpcm_ima_ima4_run(&bytes[34..], state, &mut samples).unwrap();
    print_compared(rt, "second block, state carried", second, &samples)?;
    decode_adpcm_ima_ima4_run(&bytes[34..], zeroed, &mut samples).unwrap();
    print_compared(rt, "second block, state zeroed", second, &samples)
}

// A jump to the second block: the index has the state before each of the two.
fn decode_by_index(rt: &impl Print, bytes: &[u8; 68], second: &[i16]) -> io::Result<()> {
    let mut index = [0u8; 10];
    index_adpcm_ima_ima4(bytes, AdpcmImaState::new(), 1, &mut index).unwrap();
    let mut samples = [0i16; 64];
    decode_adpcm_ima_ima4_from(bytes, &index, 1, &mut samples).unwrap();
    print_compared(rt, "second block, by an index", second, &samples)
}

// Up and down, 40 samples long.
fn wave() -> [i16; 128] {
    array::from_fn(|k| height(k % 40))
}

fn height(k: usize) -> i16
    requires { k < 40 }
{
    (300 * k.min(40 - k)) as i16
}

// The first eight samples, and how many are not those of the run that was not cut.
fn print_compared(rt: &impl Print, name: &str, second: &[i16], samples: &[i16]) -> io::Result<()> {
    print!(rt; "{name}:")?;
    for x in samples.iter().take(8) {
        print!(rt; " {x}")?;
    }
    let moved = count_moved(second, samples);
    println!(rt; " .., {moved} of 64 moved")
}

// Each place counts once.
fn count_moved(second: &[i16], samples: &[i16]) -> usize
    ensures { result ≤ length samples.now }
{
    second.iter().zip(samples).filter(|(a, b)| a != b).count()
}
