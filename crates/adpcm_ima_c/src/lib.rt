// The two lent calls of one nibble as C has them: a static library for the comparison with the Rust.
#![tactic(auto)]

ghost use Rattle.std.specs.Prelude.{◌≡◌};
ghost use Rattle.ima_nibble.specs.Step.{sixteen, stepped, emitted};
ghost use Rattle.ima_nibble.specs.Table.{ima_steps};
ghost use Rattle.adpcm_ima.specs.View.{state_of};

use adpcm_ima::AdpcmImaState;

#[unsafe(no_mangle)]
pub extern "C" fn decode_adpcm_ima(encoded_nibble: u8, state: &mut AdpcmImaState) -> i16
    ensures { (state_of state.new ≡ stepped sixteen ima_steps (state_of state.old) encoded_nibble) × (result ≡ state.new.predictor) }
{
    adpcm_ima::decode_adpcm_ima(encoded_nibble, state)
}

#[unsafe(no_mangle)]
pub extern "C" fn encode_adpcm_ima(sample_value: i16, state: &mut AdpcmImaState) -> u8
    ensures { (result ≡ emitted sixteen ima_steps (state_of state.old) sample_value) × (state_of state.new ≡ stepped sixteen ima_steps (state_of state.old) result) }
{
    adpcm_ima::encode_adpcm_ima(sample_value, state)
}
