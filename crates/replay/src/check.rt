// Each call made again, and whether its answer is the one that the line has. All of the line is taken before the answers are compared; a line that is
// too short is no call.
use crate::call::Call;
use crate::fields::Fields;
use adpcm_ima::AdpcmImaState;
use g711::{decode_alaw, decode_ulaw, encode_alaw, encode_ulaw};
use ima4_decode::decode_adpcm_ima_ima4;
use ima4_encode::encode_adpcm_ima_ima4;
use std::array;

pub(crate) fn is_same(call: Call, line: &mut Fields) -> Option<bool> {
    match call {
        Call::DecodeUlaw => Some(decode_ulaw(line.byte()?) == line.sample()?),
        Call::EncodeUlaw => Some(encode_ulaw(line.sample()?) == line.byte()?),
        Call::DecodeAlaw => Some(decode_alaw(line.byte()?) == line.sample()?),
        Call::EncodeAlaw => Some(encode_alaw(line.sample()?) == line.byte()?),
        Call::DecodeNibble => decode_nibble(line),
        Call::EncodeNibble => encode_nibble(line),
        Call::DecodeBlock => decode_block(line),
        Call::EncodeBlock => encode_block(line),
    }
}

fn decode_nibble(line: &mut Fields) -> Option<bool> {
    let nibble = line.byte()?;
    let decoded = line.take_state()?.decode(nibble);
    let sample = line.sample()?;
    let after = line.take_state()?;
    Some(decoded.sample == sample && is_recorded(decoded.state, after))
}

fn encode_nibble(line: &mut Fields) -> Option<bool> {
    let sample = line.sample()?;
    let encoded = line.take_state()?.encode(sample);
    let nibble = line.byte()?;
    let after = line.take_state()?;
    Some(encoded.nibble == nibble && is_recorded(encoded.state, after))
}

fn decode_block(line: &mut Fields) -> Option<bool> {
    let before = line.take_state()?;
    let mut samples = [0i16; 64];
    let decoded = decode_adpcm_ima_ima4(line.take::<34>()?, before, &mut samples);
    let recorded = samples_in(line.take()?);
    let after = line.take_state()?;
    Some(decoded.is_ok_and(|state| samples == recorded && is_recorded(state, after)))
}

fn encode_block(line: &mut Fields) -> Option<bool> {
    let before = line.take_state()?;
    let samples = samples_in(line.take()?);
    let mut block = [0u8; 34];
    let encoded = encode_adpcm_ima_ima4(&samples, before, &mut block);
    let recorded = line.take::<34>()?;
    let after = line.take_state()?;
    Some(encoded.is_ok_and(|state| block == *recorded && is_recorded(state, after)))
}

fn samples_in(bytes: &[u8; 128]) -> [i16; 64] {
    array::from_fn(|i| i16::from_be_bytes([bytes[2 * i], bytes[2 * i + 1]]))
}

// A line has no count of clipped steps, so that the state is equal in the other two numbers.
fn is_recorded(state: AdpcmImaState, recorded: AdpcmImaState) -> bool {
    state.recount() == recorded
}
