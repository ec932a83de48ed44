// An MS block to samples. Each channel starts from its header, so no state goes in or comes back; each counts its clipped steps from 0.
#![tactic(auto)]

ghost use Rattle.std.specs.Prelude.{◌≡◌, map, length};
ghost use Rattle.refusal.specs.Refusal.{answered};
ghost use Rattle.ima_step.specs.View.{wide_of};
ghost use Rattle.ms_block.specs.Sizes.{Taken};
ghost use Rattle.ms_block.specs.Block.{decoded_ms_block, clipped_counts, no_counts, counts_of};
ghost use Rattle.ms_block.specs.Call.{decode_ms};
ghost use Rattle.ms_decode.specs.Private.{Headed};

use adpcm_ima::IMA_STEP_TABLE;
use ima_step::Wide;
use ms_block::Reading;
use ms_layout::{MOST, check, head};
use ms_reading::check_headers;
use refusal::Refusal;

// What comes back is the count of each channel. The headers are asked about after the lengths, and a refusal leaves the buffer alone.
#[tactic(auto, using(ms_reading::proofs::Refused::by_lengths, ms_reading::proofs::Refused::by_headers, ms_reading::proofs::Refused::by_none), unfolding(ms_block::specs::Call::decode_ms))]
pub fn decode_adpcm_ima_ms(
    reading: Reading,
    channels: u8,
    buf: &[u8],
    out_samples: &mut [i16],
) -> Result<[u32; MOST], Refusal>
    ensures { answered (λ ns. ns) no_counts result out_samples.new ≡ decode_ms reading channels buf.now out_samples.old }
{
    let c = channels as usize;
    check(c, buf.len(), out_samples.len())?;
    check_headers(reading, channels, buf)?;
    let heads = heads(c, buf, out_samples);
    let ends = groups(c, buf, heads, out_samples);
    Ok(counts(ends))
}

// Every channel's header: its state, and its first sample. A channel that is not there has clipped nothing.
fn heads(c: usize, buf: &[u8], out_samples: &mut [i16]) -> [Wide; MOST]
    requires { Taken c (length buf.now) (length out_samples.old) }
    ensures { Headed c buf.now c out_samples.new (map wide_of result) }
{
    let mut wides = [Wide::from(head(0, 0, 0)); MOST];
    for ch in 0..c {
        let wide = Wide::from(head(buf[4 * ch], buf[4 * ch + 1], buf[4 * ch + 2]));
        out_samples[ch] = wide.predictor;
        wides[ch] = wide;
    }
    wides
}

// Group by group, four bytes of each channel in turn. A channel's last group may be shorter. The loops and the labelled break are the scope's own form, and `at` runs on
// from channel to channel. Where the states stand in arrays of eight beside the channel number, the memory is fixed.
fn groups(c: usize, buf: &[u8], heads: [Wide; MOST], out_samples: &mut [i16]) -> [Wide; MOST]
    requires { Taken c (length buf.now) (length out_samples.old) × Headed c buf.now c out_samples.old (map wide_of heads) }
    ensures { (out_samples.new ≡ decoded_ms_block c buf.now) × (counts_of (map wide_of result) ≡ clipped_counts c buf.now) }
{
    let steps = IMA_STEP_TABLE;
    let n = buf.len();
    let mut wides = heads;
    let mut at = 4 * c;
    'block: for g in 0.. {
        for ch in 0..c {
            if at == n {
                break 'block;
            }
            let end = (at + 4).min(n);
            let mut wide = wides[ch];
            for i in at..end {
                let byte = buf[i];
                let index = wide.index_after(byte);
                let pair = wide.decode_byte(&steps, byte);
                wide = Wide {
                    predictor: pair.second,
                    clipped: pair.clipped,
                    index,
                };
                // a group starts at frame 8 g + 1, and the samples of a channel stand c apart
                let k = c * (8 * g + 1 + 2 * (i - at)) + ch;
                out_samples[k] = pair.first;
                out_samples[k + c] = pair.second;
            }
            wides[ch] = wide;
            at = end;
        }
    }
    wides
}

fn counts(wides: [Wide; MOST]) -> [u32; MOST]
    ensures { result ≡ counts_of (map wide_of wides) }
{
    wides.map(|wide| wide.clipped)
}
