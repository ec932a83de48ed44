// The encoder asked for every sample from one state, in one call: what a comparison on its whole domain calls.
#![tactic(auto)]

ghost use Rattle.std.specs.Prelude.{◌≡◌, ◌<◌, pos, nat_abs, ◌+ℤ◌};
ghost use Rattle.std.proofs.Math.IntN.{sub_ℕ};
ghost use Rattle.num.specs.Outcome.{outcome};
ghost use Rattle.ima_nibble.specs.Step.{state};
ghost use Rattle.ima_step.specs.View.{wide_of};
ghost use Rattle.sweep.specs.Answers.{answer_of, sweep_call};

use adpcm_ima::{AdpcmImaState, IMA_STEP_TABLE};
use ima_step::Wide;

// answers[k] is the answer to the sample k - 32768. A buffer that is not of 65,536 numbers is refused by 2, and left alone: a number, since C calls this.
#[tactic(auto, using(num::proofs::Lists::all))]
#[unsafe(no_mangle)]
pub extern "C" fn sweep_encode(predictor: i16, step_index: u8, answers: &mut [u32]) -> u8
    ensures { outcome result tt answers.new ≡ sweep_call (state predictor step_index 0) answers.old }
{
    if answers.len() != 65536 {
        return 2;
    }
    let steps = IMA_STEP_TABLE;
    let state = AdpcmImaState {
        predictor,
        step_index,
        clipped: 0,
    };
    let wide = Wide::from(state);
    for (k, answer) in answers.iter_mut().enumerate() {
        *answer = answer_of(&steps, wide, sample(k));
    }
    0
}

fn sample(k: usize) -> i16
    requires { k < 65536 }
    ensures { result ≡ sub_ℕ k 32768 }
{
    (k as i32 - 32768) as i16
}

fn answer_of(steps: &[u16; 89], wide: Wide, x: i16) -> u32
    ensures { result ≡ answer_of steps.now (wide_of wide) x }
{
    let coded = wide.encode_step(steps, x);
    let next = AdpcmImaState::narrow(coded.next);
    coded.nibble + 256 * (next.step_index as u32) + 65536 * bias(next.predictor)
}

fn bias(x: i16) -> u32
    ensures { (result ≡ nat_abs (x +ℤ pos 32768)) × (result < 65536) }
{
    (x as i32 + 32768) as u32
}
