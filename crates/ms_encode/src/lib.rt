// Samples to an MS block. The states go in by value, and come back in one array.
#![tactic(auto)]

ghost use Rattle.std.specs.Prelude.{◌≡◌, map, ◌*◌, length, take};
ghost use Rattle.refusal.specs.Refusal.{handed};
ghost use Rattle.adpcm_ima.specs.View.{state_of};
ghost use Rattle.ms_block.specs.Block.{begun, block_from, states_from, encoded_ms_block};
ghost use Rattle.ms_block.specs.Call.{encode_ms};
ghost use Rattle.ms_block.specs.Sizes.{Taken};

use adpcm_ima::{AdpcmImaState, IMA_STEP_TABLE};
use halves::{bits_of, high_half, low_half, pack};
use ima_step::Wide;
use ms_layout::{MOST, check};
use refusal::Refused;

// A refusal hands the states back as they came, and leaves the buffer alone.
#[tactic(auto, using(refusal::proofs::Numbers::refuses), unfolding(ms_block::specs::Call::encode_ms))]
pub fn encode_adpcm_ima_ms(
    channels: u8,
    samples: &[i16],
    states: [AdpcmImaState; MOST],
    out_buf: &mut [u8],
) -> Result<[AdpcmImaState; MOST], Refused<[AdpcmImaState; MOST]>>
    ensures { handed (map state_of) result out_buf.new ≡ encode_ms channels samples.now (map state_of states) out_buf.old }
{
    let c = channels as usize;
    // by hand, since `?` would need a closure that takes the states along
    if let Err(refusal) = check(c, out_buf.len(), samples.len()) {
        return Err(Refused {
            refusal,
            given: states,
        });
    }
    let begun = heads(c, samples, states, out_buf);
    Ok(groups(c, samples, begun, out_buf))
}

// Every channel's header: its predictor is the first sample, and its index stays as it came.
fn heads(
    c: usize,
    samples: &[i16],
    given: [AdpcmImaState; MOST],
    out_buf: &mut [u8],
) -> [AdpcmImaState; MOST]
    requires { Taken c (length out_buf.old) (length samples.now) }
    ensures { (map state_of result ≡ begun c (map state_of given) samples.now) × (take (4 * c) out_buf.new ≡ take (4 * c) (encoded_ms_block c (map state_of given) samples.now)) }
{
    let mut states = given;
    for ch in 0..c {
        let first = samples[ch];
        let state = states[ch];
        let index = state.step_index;
        let bits = bits_of(first);
        out_buf[4 * ch] = low_half(bits);
        out_buf[4 * ch + 1] = high_half(bits);
        out_buf[4 * ch + 2] = index;
        out_buf[4 * ch + 3] = 0;
        states[ch] = state.reload(first, index);
    }
    states
}

// Group by group, four bytes of each channel in turn. A channel's last group may be shorter. The loops and the labelled break are the scope's own form, and `at` runs on
// from channel to channel. Where the states stand in arrays of eight beside the channel number, the memory is fixed.
fn groups(
    c: usize,
    samples: &[i16],
    starts: [AdpcmImaState; MOST],
    out_buf: &mut [u8],
) -> [AdpcmImaState; MOST]
    requires { Taken c (length out_buf.old) (length samples.now) × (take (4 * c) out_buf.old ≡ take (4 * c) (block_from c (map state_of starts) samples.now)) }
    ensures { (map state_of result ≡ states_from c (map state_of starts) samples.now) × (out_buf.new ≡ block_from c (map state_of starts) samples.now) }
{
    let steps = IMA_STEP_TABLE;
    let n = out_buf.len();
    let mut states = starts;
    let mut at = 4 * c;
    'block: for g in 0.. {
        for ch in 0..c {
            if at == n {
                break 'block;
            }
            let end = (at + 4).min(n);
            let mut wide = Wide::from(states[ch]);
            for i in at..end {
                // a group starts at frame 8 g + 1, and the samples of a channel stand c apart
                let k = c * (8 * g + 1 + 2 * (i - at)) + ch;
                let first = wide.encode_step(&steps, samples[k]);
                let second = first.next.encode_step(&steps, samples[k + c]);
                wide = second.next;
                out_buf[i] = pack(first.nibble, second.nibble);
            }
            states[ch] = AdpcmImaState::narrow(wide);
            at = end;
        }
    }
    states
}
