// Samples to ima4 blocks, one at a time and in runs. A state goes in by value and comes back.
#![tactic(auto)]

ghost use Rattle.std.specs.Prelude.{◌≡◌};
ghost use Rattle.refusal.specs.Refusal.{handed};
ghost use Rattle.adpcm_ima.specs.View.{state_of};
ghost use Rattle.ima4_block.specs.Call.{encode_ima4, encode_ima4_run};

use adpcm_ima::{AdpcmImaState, IMA_STEP_TABLE};
use halves::pack;
use ima_step::Wide;
use ima4_call::{Answer, is_block, is_run, refuse};
use ima4_header::{header_of, lowered_state};

// 64 samples to one block, 34 bytes.
#[tactic(auto, unfolding(ima4_block::specs::Call::encode_ima4))]
pub fn encode_adpcm_ima_ima4(samples: &[i16], state: AdpcmImaState, out_buf: &mut [u8]) -> Answer
    ensures { handed state_of result out_buf.new ≡ encode_ima4 (state_of state) samples.now out_buf.old }
{
    if !is_block(out_buf.len(), samples.len()) {
        return refuse(state);
    }
    out_buf[..2].copy_from_slice(&header_of(state));
    let steps = IMA_STEP_TABLE;
    let mut wide = Wide::from(lowered_state(state));
    for k in 0..32 {
        let low = wide.encode_step(&steps, samples[2 * k]);
        let high = low.next.encode_step(&steps, samples[2 * k + 1]);
        wide = high.next;
        out_buf[k + 2] = pack(low.nibble, high.nibble);
    }
    Ok(AdpcmImaState::narrow(wide))
}

// 0 to 1,024 blocks, each lent onward, the state handed on. (One function for both directions would take the one-block call as a parameter, and the sizes, and no
// longer show what is lent.)
#[tactic(auto, unfolding(ima4_block::specs::Call::encode_ima4_run))]
pub fn encode_adpcm_ima_ima4_run(
    samples: &[i16],
    state: AdpcmImaState,
    out_buf: &mut [u8],
) -> Answer
    ensures { handed state_of result out_buf.new ≡ encode_ima4_run (state_of state) samples.now out_buf.old }
{
    if !is_run(out_buf.len(), samples.len()) {
        return refuse(state);
    }
    let n = out_buf.len() / 34;
    let mut next = state;
    for i in 0..n {
        next = encode_adpcm_ima_ima4(
            &samples[64 * i..64 * i + 64],
            next,
            &mut out_buf[34 * i..34 * i + 34],
        )
        .unwrap();
    }
    Ok(next)
}
