// The loss report of two sample runs.
#![tactic(auto)]

ghost use Rattle.std.specs.Prelude.{◌≡◌, ◌<◌, ◌≤◌, length, None};
ghost use Rattle.refusal.specs.Refusal.{answered};
ghost use Rattle.loss.specs.Loss.{distances, first_from, first_of, report, report_in, loss_report};
ghost use Rattle.loss.specs.Private.{rest, Sees};

use refusal::Refusal;

// How many places differ, the first of them, counted from 0, and the largest difference.
#[derive(Drop)]
pub struct Loss {
    pub count: u32,
    pub first: Option<u32>,
    pub peak: u16,
}

// Two runs of equal length, 0 to 131,063. Any others are refused by 2.
#[tactic(auto, unfolding(crate::specs::Loss::loss_report))]
pub fn loss_report(before: &[i16], after: &[i16]) -> Result<Loss, Refusal>
    ensures { answered report_in (report 0 None 0) result tt ≡ loss_report before.now after.now }
{
    let n = before.len();
    if n != after.len() || 131063 < n {
        return Err(Refusal::Lengths);
    }
    let all = look(before, after);
    Ok(Loss {
        count: all.count,
        first: first_from(before, after, all.alike),
        peak: all.largest,
    })
}

// What was seen of all places: how many differ, the largest difference, and so many places from the first on that are alike.
#[derive(Drop)]
struct All {
    count: u32,
    largest: u16,
    alike: usize,
}

// Stretch by stretch. The first place that differs is not looked for here, but in the one stretch that has it. (That the runs are as long stands in three clauses. A
// struct of the two would not spare them: each asks for a bound of its own.)
fn look(before: &[i16], after: &[i16]) -> All
    requires { (length before.now ≡ length after.now) × (length before.now ≤ 131063) }
    ensures { Sees (distances before.now after.now) result.count result.largest × (first_from result.alike (rest before.now after.now result.alike) ≡ first_of (distances before.now after.now)) × (result.alike ≤ length before.now) }
{
    let mut count = 0;
    let mut largest: u16 = 0;
    let mut alike = 0;
    for (xs, ys) in before.chunks(128).zip(after.chunks(128)) {
        let seen = stretch(xs, ys);
        count += u32::from(seen.count);
        if count == 0 {
            alike += xs.len();
        }
        largest = largest.max(seen.largest);
    }
    All {
        count,
        largest,
        alike,
    }
}

// What was seen of a stretch.
#[derive(Drop)]
struct Seen {
    count: u16,
    largest: u16,
}

// No turn has a branch, and all its numbers have the width of a sample, so the compiler takes as many places at once as it can.
fn stretch(before: &[i16], after: &[i16]) -> Seen
    requires { (length before.now ≡ length after.now) × (length before.now < 65536) }
    ensures { Sees (distances before.now after.now) result.count result.largest × (result.count ≤ length before.now) }
{
    let mut count = 0;
    let mut largest: u16 = 0;
    for i in 0..before.len() {
        let d = before[i].abs_diff(after[i]);
        count += u16::from(d != 0);
        largest = largest.max(d);
    }
    Seen { count, largest }
}

// The first place that differs, from `start` on.
fn first_from(before: &[i16], after: &[i16], start: usize) -> Option<u32>
    requires { (length before.now ≡ length after.now) × (length before.now < 4294967296) × (start ≤ length before.now) }
    ensures { result ≡ first_from start (rest before.now after.now start) }
{
    before[start..]
        .iter()
        .zip(&after[start..])
        .position(|(x, y)| x != y)
        .map(|k| (start + k) as u32)
}
