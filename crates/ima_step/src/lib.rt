// One step of IMA ADPCM, as a block's loop calls it: the table lent, and a state that is wide inside. `decode_step` decodes a nibble, `encode_step` encodes a sample.
#![tactic(auto)]

mod nibble;
mod sums;

ghost use Rattle.std.specs.Prelude.{◌≡◌, ◌/◌, ◌%◌, ◌<◌, min};
ghost use Rattle.ima_nibble.specs.Step.{sixteen, stepped, emitted, indexed};
ghost use Rattle.ima_step.specs.View.{wide_of};

use halves::{high_nibble, low_nibble};
use ima_arithmetic::{difference, greedy_take, hold, sign, takes, tally, towards};
use nibble::{Change, Place, reach_count};
use sums::hold_both;

// A predictor, an index that needs no widening before it is a place in the table, and the count of clipped steps. Any index is taken: one above 88 is
// read as 88. Its methods are lent the table, since a caller's loop copies it once.
#[derive(Clone, Copy)]
pub struct Wide {
    pub predictor: i16,
    pub clipped: u32,
    pub index: usize,
}

// The two samples of a byte, and the count behind them.
#[derive(Drop)]
pub struct Pair {
    pub first: i16,
    pub second: i16,
    pub clipped: u32,
}

#[derive(Drop)]
pub struct Coded {
    pub nibble: u32,
    pub next: Wide,
}

impl Wide {
    // Only the lowest four bits of `nibble` count. The sample that it decodes to is the new predictor.
    #[tactic(auto, unfolding(ima_nibble::specs::Step::stepped, ima_nibble::specs::Step::step_at, ima_nibble::specs::Step::predicted))]
    pub fn decode_step(self, steps: &[u16; 89], nibble: u32) -> Self
        ensures { wide_of result ≡ stepped sixteen steps.now (wide_of self) nibble }
    {
        let place = Place::at(self.index);
        let sum = Change::of(place.step(steps), nibble).added_to(self.predictor);
        let index = place.next(nibble).index;
        let held = hold(sum, self.clipped);
        Self {
            predictor: held.predictor,
            clipped: held.clipped,
            index,
        }
    }

    // The two nibbles of a byte, the low one first, with one test of both sums. The index behind them is a call of its own, `index_after`: in a loop
    // it then stands before that test.
    pub fn decode_byte(self, steps: &[u16; 89], byte: u8) -> Pair
        ensures { (result.first ≡ (stepped sixteen steps.now (wide_of self) (byte % 16)).predictor) × (result.second ≡ (stepped sixteen steps.now (stepped sixteen steps.now (wide_of self) (byte % 16)) (byte / 16)).predictor) × (result.clipped ≡ (stepped sixteen steps.now (stepped sixteen steps.now (wide_of self) (byte % 16)) (byte / 16)).clipped) }
    {
        let low = low_nibble(byte);
        let high = high_nibble(byte);
        let first = Place::at(self.index);
        let between = first.next(low);
        let one = Change::of(first.step(steps), low);
        let two = Change::of(between.step(steps), high);
        hold_both(self.predictor, one, two, self.clipped)
    }

    // The index behind both nibbles of a byte.
    pub fn index_after(self, byte: u8) -> usize
        ensures { result ≡ indexed 88 (indexed 88 (min self.index 88) (byte % 16)) (byte / 16) }
    {
        let first = Place::at(self.index);
        let between = first.next(low_nibble(byte));
        between.next(high_nibble(byte)).index
    }

    // The nibble of a sample, and the state behind it, with what both need found once.
    pub fn encode_step(self, steps: &[u16; 89], sample: i16) -> Coded
        ensures { (result.nibble ≡ emitted sixteen steps.now (wide_of self) sample) × (result.nibble < 16) × (wide_of result.next ≡ stepped sixteen steps.now (wide_of self) result.nibble) }
    {
        let from = Place::at(self.index);
        let s = from.step(steps);
        let x = difference(self.predictor, sample);
        let r = x.unsigned_abs();
        let above = reach_count(s, s, r);
        let four = takes(r, u32::from(s));
        let nibble = sign(x) + reach_count(0, s, r) + four + above;
        let d = greedy_take(u32::from(s), r) + u32::from(s / 8);
        let moved = towards(self.predictor, x < 0, d);
        Coded {
            nibble,
            next: Self {
                predictor: moved.predictor,
                index: from.raise(four, above).index,
                clipped: tally(self.clipped, moved.clips),
            },
        }
    }
}
