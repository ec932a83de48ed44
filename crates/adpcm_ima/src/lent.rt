// The Rust's own shape: the state is lent, and the next one takes its place. Each call loads it, makes the step by value and stores what comes back.
// What C calls is in `adpcm_ima_c`: a library exports nothing.
ghost use Rattle.std.specs.Prelude.{◌≡◌};
ghost use Rattle.ima_nibble.specs.Step.{sixteen, stepped, emitted};
ghost use Rattle.ima_nibble.specs.Table.{ima_steps};
ghost use Rattle.adpcm_ima.specs.View.{state_of};

use crate::AdpcmImaState;

pub fn decode_adpcm_ima(encoded_nibble: u8, state: &mut AdpcmImaState) -> i16
    ensures { (state_of state.new ≡ stepped sixteen ima_steps (state_of state.old) encoded_nibble) × (result ≡ state.new.predictor) }
{
    let before = *state;
    let decoded = before.decode(encoded_nibble);
    *state = decoded.state;
    decoded.sample
}

pub fn encode_adpcm_ima(sample_value: i16, state: &mut AdpcmImaState) -> u8
    ensures { (result ≡ emitted sixteen ima_steps (state_of state.old) sample_value) × (state_of state.new ≡ stepped sixteen ima_steps (state_of state.old) result) }
{
    let before = *state;
    let encoded = before.encode(sample_value);
    *state = encoded.state;
    encoded.nibble
}
