// How an MS block is laid out: the channel numbers and lengths that a call takes, and the header of a channel.
#![tactic(auto)]

ghost use Rattle.std.specs.Prelude.{◌≡◌, ◌&&◌, ◌||◌, ◌*◌, ◌%◌, ◌≤◌, min, eqb};
ghost use Rattle.refusal.specs.Refusal.{number_in};
ghost use Rattle.adpcm_ima.specs.View.{state_of};
ghost use Rattle.ms_block.specs.Header.{headed};
ghost use Rattle.ms_block.specs.Sizes.{most, sized, samples_of, ms_refusal, repack_refusal};

use adpcm_ima::AdpcmImaState;
use halves::from_halves;
use refusal::Refusal;

// The most channels that a block has.
pub const MOST: usize = 8;

// A channel number that is not taken is refused by 1, and then lengths that are not by 2. What passes is `Taken`, which the decoder and the encoder
// require of their parts: a type for it would need two equations more, for the lengths of the two slices.
#[tactic(auto, unfolding(ms_block::specs::Sizes::ms_refusal))]
pub fn check(channels: usize, bytes: usize, samples: usize) -> Result<(), Refusal>
    ensures { number_in result ≡ ms_refusal channels bytes samples }
{
    if channels < 1 || MOST < channels {
        return Err(Refusal::Channels);
    }
    if fits(channels, bytes, samples) {
        Ok(())
    } else {
        Err(Refusal::Lengths)
    }
}

// That a length is at most 65,535 is known before the sum is made.
fn fits(c: usize, bytes: usize, samples: usize) -> bool
    requires { (1 ≤ c) × (c ≤ most) }
    ensures { result ≡ (sized c bytes && eqb samples (samples_of c bytes)) }
{
    4 * c <= bytes && bytes <= 65535 && may_end(c, bytes) && samples == 2 * (bytes - 4 * c) + c
}

// A block of one channel may end anywhere, and any other at the end of a group. The test of two channels is apart because it needs no division.
fn may_end(c: usize, bytes: usize) -> bool
    requires { (1 ≤ c) × (c ≤ most) }
    ensures { result ≡ (eqb c 1 || eqb (bytes % (4 * c)) 0) }
{
    if c == 1 {
        return true;
    }
    if c == 2 {
        return bytes % 8 == 0;
    }
    bytes % (4 * c) == 0
}

// As many samples as a block of so many bytes has; one of more than 65,536 is taken for one of that length, which is refused too.
pub fn samples(channels: u8, bytes: usize) -> usize
    ensures { result ≡ samples_of channels (min bytes 65536) }
{
    (2 * bytes.min(65536)).saturating_sub(7 * usize::from(channels))
}

// The same of a block and a buffer of equal length for what it is repacked to.
pub fn check_repack(channels: u8, bytes: usize, others: usize) -> Result<(), Refusal>
    ensures { number_in result ≡ repack_refusal channels bytes others }
{
    check(channels as usize, bytes, samples(channels, bytes))?;
    if others == bytes {
        Ok(())
    } else {
        Err(Refusal::Lengths)
    }
}

// The state that a decoder starts a channel from.
pub fn head(low: u8, high: u8, index: u8) -> AdpcmImaState
    ensures { state_of result ≡ headed low high index }
{
    AdpcmImaState::new().reload(from_halves(high, low), index.min(88))
}
