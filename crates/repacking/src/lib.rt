// Repacking an MS block: what decoding it and encoding the samples again would give. It goes channel by channel and nibble by
// nibble, with a state that reads and one that writes, so that no samples are kept.
#![tactic(auto)]

ghost use Rattle.std.specs.Prelude.{◌≡◌, ◌+◌, ◌<◌, false, length};
ghost use Rattle.refusal.specs.Refusal.{answered};
ghost use Rattle.adpcm_ima.specs.View.{state_of};
ghost use Rattle.ms_block.specs.Header.{head_of};
ghost use Rattle.ms_block.specs.Block.{bytes_in};
ghost use Rattle.ms_repacked.specs.Private.{Alike, Upto};
ghost use Rattle.ms_repacked.specs.Repack.{any_change, repack_ms};

use adpcm_ima::{AdpcmImaState, IMA_STEP_TABLE};
use halves::{bits_of, high_half, low_half, pack};
use ima_step::Wide;
use ms_block::Reading;
use ms_layout::{check_repack, head};
use ms_reading::check_headers;
use refusal::Refusal;

// What comes back is whether any byte changed. The headers are asked about after the lengths, and a refusal leaves the buffer alone.
#[tactic(auto, using(ms_repacked::proofs::Theorems::allowed, ms_reading::proofs::Refused::by_lengths, ms_reading::proofs::Refused::by_headers), unfolding(ms_repacked::specs::Repack::repack_ms))]
pub fn repack_adpcm_ima_ms(
    reading: Reading,
    channels: u8,
    block: &[u8],
    out: &mut [u8],
) -> Result<bool, Refusal>
    ensures { answered (λ b. b) false result out.new ≡ repack_ms reading channels block.now out.old }
{
    check_repack(channels, block.len(), out.len())?;
    check_headers(reading, channels, block)?;
    let c = channels as usize;
    for ch in 0..c {
        channel(c, ch, block, out);
    }
    Ok(any_change(block, out))
}

fn any_change(block: &[u8], out: &[u8]) -> bool
    requires { length block.now ≡ length out.now }
    ensures { result ≡ any_change block.now out.now }
{
    block != out
}

// One channel. What it reads and what it writes may part where a nibble cannot be reached.
#[tactic(auto, using(crate::proofs::Room::of_byte))]
fn channel(c: usize, ch: usize, block: &[u8], out: &mut [u8])
    requires { Alike c block.now out.old × (ch < c) × Upto c block.now ch 0 out.old }
    ensures { Upto c block.now (ch + 1) 0 out.new }
{
    let steps = IMA_STEP_TABLE;
    let share = block.len() / c;
    let mut reads = Wide::from(header(c, ch, block, out));
    let mut writes = reads;
    for d in 4..share {
        let at = 4 * (c * (d / 4) + ch) + d % 4;
        let byte = block[at];
        let index = reads.index_after(byte);
        let pair = reads.decode_byte(&steps, byte);
        reads = Wide {
            predictor: pair.second,
            clipped: pair.clipped,
            index,
        };
        let first = writes.encode_step(&steps, pair.first);
        let second = first.next.encode_step(&steps, pair.second);
        writes = second.next;
        out[at] = pack(first.nibble, second.nibble);
    }
}

// A channel's header, as an encoder writes it that starts where the decoder does.
#[tactic(auto, using(crate::proofs::Room::of_header, std::proofs::lemmas::Grind::common_steps))]
fn header(c: usize, ch: usize, block: &[u8], out: &mut [u8]) -> AdpcmImaState
    requires { Alike c block.now out.old × (ch < c) × Upto c block.now ch 0 out.old }
    ensures { (state_of result ≡ head_of (bytes_in c block.now ch)) × Upto c block.now ch 4 out.new }
{
    let at = 4 * ch;
    let state = head(block[at], block[at + 1], block[at + 2]);
    let bits = bits_of(state.predictor);
    out[at] = low_half(bits);
    out[at + 1] = high_half(bits);
    out[at + 2] = state.step_index;
    out[at + 3] = 0;
    state
}
