// What the calls of a seek index take: the bytes of the run, k, the record, the block and the samples.
#![tactic(auto)]

ghost use Rattle.std.specs.Prelude.{◌≡◌, ◌≤◌};
ghost use Rattle.refusal.specs.Refusal.{number_in};
ghost use Rattle.seek_index.specs.Call.{are_run, is_every, index_length, is_index, index_refusal, place_refusal, from_refusal};

use halves::join;
use refusal::Refusal;

// To build: the run's bytes, and then k and the length of the record.
pub fn check_index(bytes: usize, every: u8, size: usize) -> Result<(), Refusal>
    ensures { number_in result ≡ index_refusal bytes every size }
{
    if !are_run(bytes) {
        return Err(Refusal::Blocks);
    }
    if is_every(every) && size == index_length(every, bytes / 34) {
        Ok(())
    } else {
        Err(Refusal::Index)
    }
}

// To use an index at block `from`: the run's bytes, and then the index and the block.
pub fn check_place(bytes: usize, index: &[u8], from: usize) -> Result<(), Refusal>
    ensures { number_in result ≡ place_refusal bytes index.now from }
{
    if !are_run(bytes) {
        return Err(Refusal::Blocks);
    }
    let n = bytes / 34;
    if is_index(n, index) && from < n {
        Ok(())
    } else {
        Err(Refusal::Index)
    }
}

// To decode from there: the same, and then the samples.
pub fn check_from(bytes: usize, index: &[u8], from: usize, samples: usize) -> Result<(), Refusal>
    ensures { number_in result ≡ from_refusal bytes index.now from samples }
{
    check_place(bytes, index, from)?;
    if samples == 64 * (bytes / 34 - from) {
        Ok(())
    } else {
        Err(Refusal::Blocks)
    }
}

// `is_run` of `ima4_call` tests this too, by a definition of its own (ima4_block). A run that is indexed has no samples beside it.
fn are_run(bytes: usize) -> bool
    ensures { result ≡ are_run bytes }
{
    bytes / 34 <= 1024 && bytes.is_multiple_of(34)
}

fn is_every(every: u8) -> bool
    ensures { result ≡ is_every every }
{
    (1..=64).contains(&every)
}

// As many bytes as an index has for n blocks, of which every k-th has its state kept.
fn index_length(every: u8, n: usize) -> usize
    requires { (1 ≤ every) × (n ≤ 1024) }
    ensures { result ≡ index_length every n }
{
    4 + 3 * n.div_ceil(usize::from(every))
}

// Four bytes before the states: the length of what stands behind the first two, the version, and k.
fn is_index(n: usize, index: &[u8]) -> bool
    requires { n ≤ 1024 }
    ensures { result ≡ is_index n index.now }
{
    let [high, low, version, every, ..] = index else {
        return false;
    };
    *version == 1
        && is_every(*every)
        && index.len() == index_length(*every, n)
        && join(*high, *low) == index.len() - 2
}
