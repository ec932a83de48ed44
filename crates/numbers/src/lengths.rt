// The lengths that the MS calls take: those of a block, or of samples, and beside them a buffer of the length that fits.
use adpcm_ima::AdpcmImaState;
use ms_block::Reading;
use ms_decode::decode_adpcm_ima_ms;
use ms_encode::encode_adpcm_ima_ms;
use ms_layout::MOST;
use refusal::Refusal;
use std::io;

pub(crate) fn show(rt: &impl Print) -> io::Result<()> {
    print_decode(rt, 1, &[0; 3], &mut [])?;
    print_decode(rt, 1, &[0; 4], &mut [0; 1])?;
    print_decode(rt, 2, &[0; 8], &mut [0; 2])?;
    print_decode(rt, 2, &[0; 12], &mut [0; 10])?;
    print_decode(rt, 1, &[0; 65536], &mut [0; 131065])?;
    print_decode(rt, 2, &[0; 65536], &mut [0; 131058])?;
    print_encode(rt, 1, &[], &mut [0; 3])?;
    print_encode(rt, 2, &[], &mut [0; 7])?;
    print_encode(rt, 2, &[0; 2], &mut [0; 8])?;
    print_encode(rt, 2, &[0; 18], &mut [0; 16])?;
    print_encode(rt, 2, &[0; 10], &mut [0; 12])
}

fn print_decode(
    rt: &impl Print,
    channels: u8,
    block: &[u8],
    samples: &mut [i16],
) -> io::Result<()> {
    let refusal = decode_adpcm_ima_ms(Reading::Strict, channels, block, samples).err();
    print_answer(rt, "decode", channels, block.len(), "bytes", refusal)
}

fn print_encode(
    rt: &impl Print,
    channels: u8,
    samples: &[i16],
    block: &mut [u8],
) -> io::Result<()> {
    let states = [AdpcmImaState::new(); MOST];
    let refused = encode_adpcm_ima_ms(channels, samples, states, block).err();
    let refusal = refused.map(|refused| refused.refusal);
    print_answer(rt, "encode", channels, samples.len(), "samples", refusal)
}

fn print_answer(
    rt: &impl Print,
    call: &str,
    channels: u8,
    length: usize,
    unit: &str,
    refusal: Option<Refusal>,
) -> io::Result<()> {
    let blocks = if channels == 1 { "mono" } else { "stereo" };
    print!(rt; "{call} {blocks}, {length} {unit} ")?;
    match refusal {
        None => println!(rt; "taken"),
        Some(refusal) => {
            let number = refusal.number();
            println!(rt; "refused by {number}")
        }
    }
}
