// ima4 blocks to samples, one at a time and in runs. A state goes in by value and comes back.
#![tactic(auto)]

ghost use Rattle.std.specs.Prelude.{◌≡◌};
ghost use Rattle.refusal.specs.Refusal.{handed};
ghost use Rattle.adpcm_ima.specs.View.{state_of};
ghost use Rattle.ima4_block.specs.Call.{decode_ima4, decode_ima4_run};

use adpcm_ima::{AdpcmImaState, IMA_STEP_TABLE};
use ima_step::Wide;
use ima4_call::{Answer, is_block, is_run, refuse};
use ima4_header::start_state;

// One block, 34 bytes, to 64 samples.
#[tactic(auto, unfolding(ima4_block::specs::Call::decode_ima4))]
pub fn decode_adpcm_ima_ima4(buf: &[u8], state: AdpcmImaState, out_samples: &mut [i16]) -> Answer
    ensures { handed state_of result out_samples.new ≡ decode_ima4 (state_of state) buf.now out_samples.old }
{
    if !is_block(buf.len(), out_samples.len()) {
        return refuse(state);
    }
    let steps = IMA_STEP_TABLE;
    let mut wide = Wide::from(start_state(state, buf[0], buf[1]));
    for k in 0..32 {
        let byte = buf[k + 2];
        let index = wide.index_after(byte);
        let pair = wide.decode_byte(&steps, byte);
        wide = Wide {
            predictor: pair.second,
            clipped: pair.clipped,
            index,
        };
        let first = pair.first;
        let second = pair.second;
        out_samples[2 * k] = first;
        out_samples[2 * k + 1] = second;
    }
    Ok(AdpcmImaState::narrow(wide))
}

// 0 to 1,024 blocks, each lent onward, the state handed on. (The run of ima4_encode says why the two are not one.)
#[tactic(auto, unfolding(ima4_block::specs::Call::decode_ima4_run))]
pub fn decode_adpcm_ima_ima4_run(
    buf: &[u8],
    state: AdpcmImaState,
    out_samples: &mut [i16],
) -> Answer
    ensures { handed state_of result out_samples.new ≡ decode_ima4_run (state_of state) buf.now out_samples.old }
{
    if !is_run(buf.len(), out_samples.len()) {
        return refuse(state);
    }
    let n = buf.len() / 34;
    let mut next = state;
    for i in 0..n {
        next = decode_adpcm_ima_ima4(
            &buf[34 * i..34 * i + 34],
            next,
            &mut out_samples[64 * i..64 * i + 64],
        )
        .unwrap();
    }
    Ok(next)
}
