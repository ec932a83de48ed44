// Two sums, one behind the other, as 16 bits hold them.
ghost use Rattle.std.specs.Prelude.{◌+ℤ◌};
ghost use Rattle.ima_step.specs.Private.{HeldTwice};

use crate::Pair;
use crate::nibble::Change;
use ima_arithmetic::hold;
use num::outside;

// Where two changes bring a predictor. Both sums are tested at once: where neither is outside, both are taken as they are.
#[tactic(auto, unfolding(num::specs::Clamp::outside))]
pub(crate) fn hold_both(predictor: i16, one: Change, two: Change, clipped: u32) -> Pair
    ensures { HeldTwice (predictor +ℤ one.by) two.by clipped result.first result.second result.clipped }
{
    let sum = one.added_to(predictor);
    let next = sum + two.by;
    if outside(-32768, 32767, sum) || outside(-32768, 32767, next) {
        return hold_each(sum, two, clipped);
    }
    let first = sum as i16;
    let second = next as i16;
    Pair {
        first,
        second,
        clipped,
    }
}

// The same, one after the other.
fn hold_each(sum: i32, two: Change, clipped: u32) -> Pair
    ensures { HeldTwice sum two.by clipped result.first result.second result.clipped }
{
    let one = hold(sum, clipped);
    let next = two.added_to(one.predictor);
    let second = hold(next, one.clipped);
    Pair {
        first: one.predictor,
        second: second.predictor,
        clipped: second.clipped,
    }
}
