// The header of an ima4 block, from which a decoder starts the block and which an encoder writes.
#![tactic(auto)]

mod rule;

ghost use Rattle.std.specs.Prelude.{◌≡◌};
ghost use Rattle.adpcm_ima.specs.View.{state_of};
ghost use Rattle.ima4_block.specs.Header.{ima4_header, start_state, lowered_state};

use adpcm_ima::AdpcmImaState;
use halves::{bits_of, from_halves, high_half, low_half};
use rule::keeps;

// The decoder's own state, or that of the header.
#[tactic(auto, unfolding(ima4_block::specs::Header::start_state))]
pub fn start_state(own: AdpcmImaState, high: u8, low: u8) -> AdpcmImaState
    ensures { state_of result ≡ start_state (state_of own) high low }
{
    let predictor = from_halves(high, low / 128 * 128);
    let head = own.reload(predictor, (low % 128).min(88));
    if keeps(own, head) { own } else { head }
}

// The state that an encoder writes and goes on from.
pub fn lowered_state(state: AdpcmImaState) -> AdpcmImaState
    ensures { state_of result ≡ lowered_state (state_of state) }
{
    state.reload(state.predictor, state.step_index.min(88))
}

// Nine top bits of the predictor, seven of the lowered index.
pub fn header_of(state: AdpcmImaState) -> [u8; 2]
    ensures { result ≡ ima4_header (lowered_state (state_of state)) }
{
    let seven = state.step_index.min(88);
    let bits = bits_of(state.predictor) / 128 * 128 + u32::from(seven);
    [high_half(bits), low_half(bits)]
}
