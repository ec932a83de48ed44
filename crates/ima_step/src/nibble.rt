// The arithmetic of one nibble from an index that is held and a step of the table.
ghost use Rattle.std.specs.Prelude.{◌≡◌, ◌+◌, ◌-◌, ◌*◌, ◌/◌, ◌≤◌, ◌<◌, min, ◌+ℤ◌, get_or};
ghost use Rattle.std.specs.Int.Signed.{mag};
ghost use Rattle.ima_nibble.specs.Step as Step;
ghost use Rattle.ima_nibble.specs.Step.{d, indexed};
ghost use Rattle.ima_step.specs.Private.{change};

use ima_arithmetic::{part, takes};

// A place in the table: an index that is held at 88.
#[derive(Clone, Copy)]
pub(crate) struct Place {
    pub(crate) index: usize,
    ghost held: { index ≤ 88 },
}

impl Place {
    pub(crate) fn at(index: usize) -> Self
        ensures { result.index ≡ min index 88 }
    {
        Self {
            index: index.min(88),
        }
    }

    pub(crate) fn step(self, steps: &[u16; 89]) -> u16
        ensures { result ≡ get_or steps.now self.index 0 }
    {
        steps[self.index]
    }

    // The move of a nibble with bit 4 is twice its two lower bits and 2, and that of any other -1. Both are one less than what is added.
    #[tactic(auto, using(ima_nibble::proofs::Held::hold))]
    pub(crate) fn next(self, nibble: u32) -> Self
        ensures { result.index ≡ indexed 88 self.index nibble }
    {
        let raised = self.index + part(nibble / 4, 2 * (nibble % 4) + 3) as usize;
        Self::at(raised.saturating_sub(1))
    }

    // A magnitude of 4 and more is 4 and what is reached above the step. What is added is one more than the move, as in `next`.
    pub(crate) fn raise(self, four: u32, above: u32) -> Self
        requires { (four ≤ 1) × (above ≤ 3) }
        ensures { result.index ≡ min (self.index + (3 * four + 2 * above) - 1) 88 }
    {
        let raised = self.index + (3 * four + 2 * above) as usize;
        Self::at(raised.saturating_sub(1))
    }
}

// What a nibble adds to a predictor: few enough to be added twice.
#[derive(Clone, Copy)]
pub(crate) struct Change {
    pub(crate) by: i32,
    ghost small: { mag by ≤ 131072 },
}

impl Change {
    // Bit 8 subtracts, otherwise it is added.
    pub(crate) fn of(s: u16, nibble: u32) -> Self
        ensures { result.by ≡ change s nibble }
    {
        let d = size(s, nibble) as i32;
        let by = if nibble / 8 % 2 == 1 { 0 - d } else { d };
        Self { by }
    }

    pub(crate) fn added_to(self, predictor: i16) -> i32
        ensures { (result ≡ predictor +ℤ self.by) × (mag result ≤ 163840) }
    {
        predictor as i32 + self.by
    }
}

#[tactic(auto, unfolding(ima_nibble::specs::Step::m))]
fn size(s: u16, nibble: u32) -> u32
    ensures { (result ≡ d s nibble) × (result < 131072) }
{
    let s = u32::from(s);
    let m = part(nibble / 4, s) + part(nibble / 2, s / 2) + part(nibble, s / 4);
    m + s / 8
}

// What the greedy taking gives is how many of the seven sums of parts the difference reaches: s, and three below and three above it. Counting them
// asks for no branch. How many of a + s/4, a + s/2 and a + s/2 + s/4 it reaches:
pub(crate) fn reach_count(a: u16, s: u16, r: u32) -> u32
    ensures { (result ≡ Step.part (Step.takes r (a + s / 4)) 1 + Step.part (Step.takes r (a + s / 2)) 1 + Step.part (Step.takes r (a + s / 2 + s / 4)) 1) × (result ≤ 3) }
{
    let a = u32::from(a);
    let s = u32::from(s);
    takes(r, a + s / 4) + takes(r, a + s / 2) + takes(r, a + s / 2 + s / 4)
}
