// Small helpers, and the laws that every codec shares. Each is defined for all of its inputs.
#![tactic(auto)]

ghost use Rattle.std.specs.Prelude.{◌≡◌};
ghost use Rattle.std.specs.Int.Signed.{mag};
ghost use Rattle.num.specs.Clamp as Clamp;

// A negative number complemented, -1 - x, and any other as it is.
pub fn complement(x: i16) -> u32
    ensures { result ≡ mag x }
{
    if x < 0 { (-1 - x) as u32 } else { x as u32 }
}

// A number below `lowest` becomes that, and one above `highest` that. (The library's `clamp` asks that the limits are in order.)
pub fn clamp(lowest: i32, highest: i32, x: i32) -> i32
    ensures { result ≡ Clamp.clamp lowest highest x }
{
    if x < lowest {
        lowest
    } else if highest < x {
        highest
    } else {
        x
    }
}

// Whether it is one of those that the clamp moves.
#[tactic(auto, unfolding(crate::specs::Clamp::outside))]
pub fn outside(lowest: i32, highest: i32, x: i32) -> bool
    ensures { result ≡ Clamp.outside lowest highest x }
{
    x < lowest || highest < x
}
