// The channels' states and their numbers, three arrays of which stand for them on the C side.
#![tactic(auto)]

ghost use Rattle.std.specs.Prelude.{◌≡◌, map};
ghost use Rattle.adpcm_ima.specs.View.{state_of};
ghost use Rattle.ms_block.specs.Block.{counts_of};
ghost use Rattle.channels.specs.States.{states_of, predictors_of, indices_of};

use adpcm_ima::AdpcmImaState;
use ms_layout::MOST;

pub fn states_of(
    predictors: [i16; MOST],
    step_indices: [u8; MOST],
    clipped: [u32; MOST],
) -> [AdpcmImaState; MOST]
    ensures { map state_of result ≡ states_of predictors step_indices clipped }
{
    std::array::from_fn(|e| AdpcmImaState {
        predictor: predictors[e],
        step_index: step_indices[e],
        clipped: clipped[e],
    })
}

pub fn predictors_of(states: [AdpcmImaState; MOST]) -> [i16; MOST]
    ensures { result ≡ predictors_of (map state_of states) }
{
    states.map(|state| state.predictor)
}

pub fn step_indices_of(states: [AdpcmImaState; MOST]) -> [u8; MOST]
    ensures { result ≡ indices_of (map state_of states) }
{
    states.map(|state| state.step_index)
}

pub fn clipped_of(states: [AdpcmImaState; MOST]) -> [u32; MOST]
    ensures { result ≡ counts_of (map state_of states) }
{
    states.map(|state| state.clipped)
}
