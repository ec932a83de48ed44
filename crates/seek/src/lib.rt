// A seek index beside an ima4 run, built, rebuilt, and decoded by way of. A state goes in by value and comes back.
#![tactic(auto)]

ghost use Rattle.std.specs.Prelude.{◌≡◌, ◌+◌, ◌-◌, ◌*◌, ◌/◌, ◌≤◌, ◌<◌, length, take};
ghost use Rattle.refusal.specs.Refusal.{handed, answered};
ghost use Rattle.ima_nibble.specs.Step.{zero_state};
ghost use Rattle.adpcm_ima.specs.View.{state_of};
ghost use Rattle.seek_index.specs.Call.{index_ima4, decode_ima4_from, reindex_ima4};
ghost use Rattle.seek_index.specs.Private.{Room};
ghost use Rattle.seek_index.specs.Record.{state_before, kept_states, state_bytes, record_head, state_in};

use adpcm_ima::AdpcmImaState;
use halves::{bits_of, from_halves, high_half, low_half};
use ima4_call::Answer;
use ima4_decode::decode_adpcm_ima_ima4_run;
use refusal::{Refusal, Refused};
use seek_call::{check_from, check_index, check_place};

// The index of a run from a start state. The state behind the run comes back.
#[tactic(auto, using(refusal::proofs::Numbers::refuses), unfolding(seek_index::specs::Call::index_ima4))]
pub fn index_adpcm_ima_ima4(buf: &[u8], state: AdpcmImaState, every: u8, index: &mut [u8]) -> Answer
    ensures { handed state_of result index.new ≡ index_ima4 (state_of state) buf.now every index.old }
{
    // by hand, since `?` would need a closure that takes the state along
    if let Err(refusal) = check_index(buf.len(), every, index.len()) {
        return Err(Refused {
            refusal,
            given: state,
        });
    }
    put_head(index, every);
    Ok(keep_states(buf, every as usize, state, &mut index[4..]))
}

// The states after block `from` anew, where that block and later ones are replaced.
#[tactic(auto, using(refusal::proofs::Numbers::refuses), unfolding(seek_index::specs::Call::reindex_ima4))]
pub fn reindex_adpcm_ima_ima4(buf: &[u8], from: usize, index: &mut [u8]) -> Result<(), Refusal>
    ensures { answered (λ u. u) tt result index.new ≡ reindex_ima4 buf.now from index.old }
{
    check_place(buf.len(), index, from)?;
    let every = index[3] as usize;
    let kept = from / every;
    let start = 34 * (every * kept);
    let next = (start + 34 * every).min(buf.len());
    let state = state_behind(&buf[start..next], state_in(index, kept));
    keep_states(&buf[next..], every, state, &mut index[7 + 3 * kept..]);
    Ok(())
}

// Block `from` and all behind it to samples, from the kept state at or before it. The state behind the run comes back. Its count begins at block `from`,
// since an index has none.
#[tactic(auto, using(refusal::proofs::Numbers::refuses), unfolding(seek_index::specs::Call::decode_ima4_from))]
pub fn decode_adpcm_ima_ima4_from(
    buf: &[u8],
    index: &[u8],
    from: usize,
    out_samples: &mut [i16],
) -> Result<AdpcmImaState, Refusal>
    ensures { answered state_of zero_state result out_samples.new ≡ decode_ima4_from zero_state buf.now index.now from out_samples.old }
{
    check_from(buf.len(), index, from, out_samples.len())?;
    let every = index[3] as usize;
    let kept = from / every;
    let behind = state_behind(&buf[34 * (every * kept)..34 * from], state_in(index, kept));
    let start = behind.recount();
    Ok(decode_adpcm_ima_ima4_run(&buf[34 * from..], start, out_samples).unwrap())
}

// The four bytes before the states: the length of what stands behind the first two, the version, and k.
fn put_head(index: &mut [u8], every: u8)
    requires { (4 ≤ length index.old) × (length index.old < 65536) }
    ensures { take 4 index.new ≡ record_head every (length index.old - 2) }
{
    let rest = (index.len() - 2) as u32;
    index[..4].copy_from_slice(&[high_half(rest), low_half(rest), 1, every]);
}

// The i-th state of an index.
fn state_in(index: &[u8], i: usize) -> AdpcmImaState
    requires { 7 + 3 * i ≤ length index.now }
    ensures { state_of result ≡ state_in index.now i }
{
    let at = 4 + 3 * i;
    AdpcmImaState::new().reload(from_halves(index[at], index[at + 1]), index[at + 2])
}

// The state behind whole blocks, each decoded to samples that nobody keeps.
#[tactic(auto, unfolding(ima4_block::specs::Run::run))]
fn state_behind(buf: &[u8], state: AdpcmImaState) -> AdpcmImaState
    ensures { state_of result ≡ state_before (state_of state) buf.now (length buf.now / 34) }
{
    let mut samples: [i16; 64] = [0; 64];
    let n = buf.len() / 34;
    let mut next = state;
    for i in 0..n {
        next = decode_adpcm_ima_ima4_run(&buf[34 * i..34 * i + 34], next, &mut samples).unwrap();
    }
    next
}

// The state before every k-th block of a run is written. The one behind the run comes back.
fn keep_states(buf: &[u8], k: usize, state: AdpcmImaState, out: &mut [u8]) -> AdpcmImaState
    requires { Room k buf.now out.old }
    ensures { (out.new ≡ state_bytes (kept_states k (length buf.now / 34) (state_of state) buf.now)) × (state_of result ≡ state_before (state_of state) buf.now (length buf.now / 34)) }
{
    let m = out.len() / 3;
    let mut next = state;
    for i in 0..m {
        let bits = bits_of(next.predictor);
        out[3 * i] = high_half(bits);
        out[3 * i + 1] = low_half(bits);
        out[3 * i + 2] = next.step_index;
        let start = 34 * (k * i);
        let end = (start + 34 * k).min(buf.len());
        next = state_behind(&buf[start..end], next);
    }
    next
}
