// The static library: the C interface, each function with its whole contract. Refusals are numbers here, a state is three, and a reading has a name of its own,
// because C has them so.
#![tactic(auto)]

ghost use Rattle.std.specs.Prelude.{◌≡◌, length};
ghost use Rattle.num.specs.Outcome.{outcome};
ghost use Rattle.ima_nibble.specs.Step.{state, sixteen, stepped, emitted};
ghost use Rattle.ima_nibble.specs.Table.{ima_steps};
ghost use Rattle.adpcm_ima.specs.View.{state_of};
ghost use Rattle.ima4_block.specs.Call.{decode_ima4_run, encode_ima4_run};
ghost use Rattle.seek_index.specs.Call.{index_ima4, reindex_ima4, decode_ima4_from};
ghost use Rattle.loss.specs.Loss.{report};
ghost use Rattle.ms_block.specs.declared.Reading.TheVariants.{Strict, Lenient};
ghost use Rattle.ms_block.specs.Call.{encode_ms};
ghost use Rattle.ms_block.specs.Sizes.{most};
ghost use Rattle.sprettuhol.specs.Decode.{decode_call};
ghost use Rattle.sprettuhol.specs.Loss.{loss_call};
ghost use Rattle.sprettuhol.specs.Repack.{number_of, repack_call};
ghost use Rattle.sprettuhol.specs.Told.{seen, stored};
ghost use Rattle.sprettuhol.specs.Version.{version};
ghost use Rattle.channels.specs.States.{states_of};
ghost use Rattle.g711.specs.Law.{mu_law, a_law, sample_of, code_of};

use adpcm_ima::AdpcmImaState;
use channels::{clipped_of, predictors_of, states_of, step_indices_of};
use ima4_decode::decode_adpcm_ima_ima4_run;
use ima4_encode::encode_adpcm_ima_ima4_run;
use loss::loss_report;
use ms_block::Reading;
use ms_decode::decode_adpcm_ima_ms;
use ms_encode::encode_adpcm_ima_ms;
use ms_layout::MOST;
use refusal::{Refusal, hear, number_in};
use repacking::repack_adpcm_ima_ms;
use seek::{decode_adpcm_ima_ima4_from, index_adpcm_ima_ima4, reindex_adpcm_ima_ima4};

// The header has it too, and so has the Cargo.toml of the Rust crate.
const VERSION: u32 = 600;

#[unsafe(no_mangle)]
pub extern "C" fn spr_version() -> u32
    ensures { result ≡ version }
{
    VERSION
}

#[unsafe(no_mangle)]
pub extern "C" fn spr_decode_ulaw(encoded: u8) -> i16
    ensures { result ≡ sample_of mu_law encoded }
{
    g711::decode_ulaw(encoded)
}

#[unsafe(no_mangle)]
pub extern "C" fn spr_encode_ulaw(linear: i16) -> u8
    ensures { result ≡ code_of mu_law linear }
{
    g711::encode_ulaw(linear)
}

#[unsafe(no_mangle)]
pub extern "C" fn spr_decode_alaw(encoded: u8) -> i16
    ensures { result ≡ sample_of a_law encoded }
{
    g711::decode_alaw(encoded)
}

#[unsafe(no_mangle)]
pub extern "C" fn spr_encode_alaw(linear: i16) -> u8
    ensures { result ≡ code_of a_law linear }
{
    g711::encode_alaw(linear)
}

// The state is read and written through its three numbers.
#[unsafe(no_mangle)]
pub extern "C" fn spr_decode_adpcm_ima(
    nibble: u8,
    predictor: &mut i16,
    step_index: &mut u8,
    clipped: &mut u32,
) -> i16
    ensures { (result ≡ predictor.new) × (state predictor.new step_index.new clipped.new ≡ stepped sixteen ima_steps (state predictor.old step_index.old clipped.old) nibble) }
{
    let before = state(*predictor, *step_index, *clipped);
    let decoded = before.decode(nibble);
    store(decoded.state, predictor, step_index, clipped);
    decoded.sample
}

#[unsafe(no_mangle)]
pub extern "C" fn spr_encode_adpcm_ima(
    sample: i16,
    predictor: &mut i16,
    step_index: &mut u8,
    clipped: &mut u32,
) -> u8
    ensures { (result ≡ emitted sixteen ima_steps (state predictor.old step_index.old clipped.old) sample) × (state predictor.new step_index.new clipped.new ≡ stepped sixteen ima_steps (state predictor.old step_index.old clipped.old) result) }
{
    let before = state(*predictor, *step_index, *clipped);
    let encoded = before.encode(sample);
    store(encoded.state, predictor, step_index, clipped);
    encoded.nibble
}

// A run of blocks. Lengths that do not fit are refused by 3, and then nothing is written.
#[unsafe(no_mangle)]
pub extern "C" fn spr_decode_ima4(
    bytes: &[u8],
    predictor: &mut i16,
    step_index: &mut u8,
    clipped: &mut u32,
    samples: &mut [i16],
) -> u8
    ensures { outcome result (state predictor.new step_index.new clipped.new) samples.new ≡ decode_ima4_run (state predictor.old step_index.old clipped.old) bytes.now samples.old }
{
    let before = state(*predictor, *step_index, *clipped);
    let (number, next) = hear(decode_adpcm_ima_ima4_run(bytes, before, samples));
    store(next, predictor, step_index, clipped);
    number
}

#[unsafe(no_mangle)]
pub extern "C" fn spr_encode_ima4(
    samples: &[i16],
    predictor: &mut i16,
    step_index: &mut u8,
    clipped: &mut u32,
    bytes: &mut [u8],
) -> u8
    ensures { outcome result (state predictor.new step_index.new clipped.new) bytes.new ≡ encode_ima4_run (state predictor.old step_index.old clipped.old) samples.now bytes.old }
{
    let before = state(*predictor, *step_index, *clipped);
    let (number, next) = hear(encode_adpcm_ima_ima4_run(samples, before, bytes));
    store(next, predictor, step_index, clipped);
    number
}

// A seek index beside a run. The run's bytes are refused by 3, and then k, the record or the place by 5; nothing is written then.
#[unsafe(no_mangle)]
pub extern "C" fn spr_ima4_index(
    bytes: &[u8],
    every: u8,
    predictor: &mut i16,
    step_index: &mut u8,
    clipped: &mut u32,
    record: &mut [u8],
) -> u8
    ensures { outcome result (state predictor.new step_index.new clipped.new) «record».new ≡ index_ima4 (state predictor.old step_index.old clipped.old) bytes.now every «record».old }
{
    let before = state(*predictor, *step_index, *clipped);
    let (number, next) = hear(index_adpcm_ima_ima4(bytes, before, every, record));
    store(next, predictor, step_index, clipped);
    number
}

#[unsafe(no_mangle)]
pub extern "C" fn spr_ima4_reindex(bytes: &[u8], from: usize, record: &mut [u8]) -> u8
    ensures { outcome result tt «record».new ≡ reindex_ima4 bytes.now from «record».old }
{
    number_in(reindex_adpcm_ima_ima4(bytes, from, record))
}

// The state is written only. Samples that do not fit are refused by 3, after all else.
#[unsafe(no_mangle)]
pub extern "C" fn spr_decode_ima4_from(
    bytes: &[u8],
    record: &[u8],
    from: usize,
    predictor: &mut i16,
    step_index: &mut u8,
    clipped: &mut u32,
    samples: &mut [i16],
) -> u8
    ensures { outcome result (state predictor.new step_index.new clipped.new) samples.new ≡ decode_ima4_from (state predictor.old step_index.old clipped.old) bytes.now «record».now from samples.old }
{
    match decode_adpcm_ima_ima4_from(bytes, record, from, samples) {
        Ok(next) => {
            store(next, predictor, step_index, clipped);
            0
        }
        Err(refusal) => refusal.number(),
    }
}

// One MS block. Channel numbers that are not taken are refused by 1, then lengths by 2, and then a step index above 88 in a header by 8; nothing is
// written then.
#[unsafe(no_mangle)]
pub extern "C" fn spr_decode_ms(
    channels: u8,
    block: &[u8],
    samples: &mut [i16],
    clipped: &mut [u32; MOST],
) -> u8
    ensures { outcome result clipped.new samples.new ≡ decode_call Strict channels block.now samples.old clipped.old }
{
    let counts = decode_adpcm_ima_ms(Reading::Strict, channels, block, samples);
    tell(counts, clipped)
}

// The same, but for an index above 88, which is lowered.
#[unsafe(no_mangle)]
pub extern "C" fn spr_decode_ms_lenient(
    channels: u8,
    block: &[u8],
    samples: &mut [i16],
    clipped: &mut [u32; MOST],
) -> u8
    ensures { outcome result clipped.new samples.new ≡ decode_call Lenient channels block.now samples.old clipped.old }
{
    let counts = decode_adpcm_ima_ms(Reading::Lenient, channels, block, samples);
    tell(counts, clipped)
}

// The states are read and written through three numbers each, for all eight channels.
#[unsafe(no_mangle)]
pub extern "C" fn spr_encode_ms(
    channels: u8,
    samples: &[i16],
    predictors: &mut [i16; MOST],
    step_indices: &mut [u8; MOST],
    clipped: &mut [u32; MOST],
    block: &mut [u8],
) -> u8
    ensures encoded { outcome result (states_of predictors.new step_indices.new clipped.new) block.new ≡ encode_ms channels samples.now (states_of predictors.old step_indices.old clipped.old) block.old }
    ensures lengths { (length predictors.new ≡ most) × (length step_indices.new ≡ most) × (length clipped.new ≡ most) }
{
    let before = states_of(*predictors, *step_indices, *clipped);
    let (number, after) = hear(encode_adpcm_ima_ms(channels, samples, before, block));
    *predictors = predictors_of(after);
    *step_indices = step_indices_of(after);
    *clipped = clipped_of(after);
    number
}

// A block decoded and encoded again, into a second buffer of equal length. It is read as in decoding.
#[unsafe(no_mangle)]
pub extern "C" fn spr_repack_ms(
    channels: u8,
    block: &[u8],
    repacked: &mut [u8],
    changed: &mut u8,
) -> u8
    ensures { outcome result changed.new repacked.new ≡ repack_call Strict channels block.now repacked.old changed.old }
{
    let change = repack_adpcm_ima_ms(Reading::Strict, channels, block, repacked);
    tell(as_number(change), changed)
}

#[unsafe(no_mangle)]
pub extern "C" fn spr_repack_ms_lenient(
    channels: u8,
    block: &[u8],
    repacked: &mut [u8],
    changed: &mut u8,
) -> u8
    ensures { outcome result changed.new repacked.new ≡ repack_call Lenient channels block.now repacked.old changed.old }
{
    let change = repack_adpcm_ima_ms(Reading::Lenient, channels, block, repacked);
    tell(as_number(change), changed)
}

// The loss report. Lengths that do not fit are refused by 2, and then nothing is stored.
#[tactic(auto, unfolding(crate::specs::Loss::loss_call))]
#[unsafe(no_mangle)]
pub extern "C" fn spr_loss(
    before: &[i16],
    after: &[i16],
    count: &mut u32,
    first: &mut u32,
    peak: &mut u16,
) -> u8
    ensures { outcome result (report count.new first.new peak.new) tt ≡ loss_call before.now after.now (report count.old first.old peak.old) }
{
    match loss_report(before, after) {
        Ok(loss) => {
            *count = loss.count;
            *first = loss.first.unwrap_or(u32::MAX);
            *peak = loss.peak;
            0
        }
        Err(refusal) => refusal.number(),
    }
}

// The three numbers that stand for a state on the C side, as a state.
fn state(predictor: i16, step_index: u8, clipped: u32) -> AdpcmImaState
    ensures { state_of result ≡ state predictor step_index clipped }
{
    AdpcmImaState {
        predictor,
        step_index,
        clipped,
    }
}

// A state, as these three numbers.
fn store(next: AdpcmImaState, predictor: &mut i16, step_index: &mut u8, clipped: &mut u32)
    ensures { state predictor.new step_index.new clipped.new ≡ state_of next }
{
    *predictor = next.predictor;
    *step_index = next.step_index;
    *clipped = next.clipped;
}

// Whether a block changed, as the number that C reads.
fn as_number(change: Result<bool, Refusal>) -> Result<u8, Refusal>
    ensures { result ≡ seen number_of change }
{
    change.map(u8::from)
}

// Stores what a call tells, unless it is refused, and hands back its number.
fn tell<T: Drop>(answer: Result<T, Refusal>, place: &mut T) -> u8
    ensures { (result, place.new) ≡ stored place.old answer }
{
    match answer {
        Ok(told) => {
            *place = told;
            0
        }
        Err(refusal) => refusal.number(),
    }
}
