// How many answers of each call are the same, and how many differ.
use crate::call::{CALLS, Call};
use std::io;

#[derive(Clone, Copy)]
struct Count {
    same: u32,
    differ: u32,
}

#[derive(Clone, Copy)]
pub(crate) struct Tally {
    // In the order of the calls' numbers.
    counts: [Count; 8],
    // Lines that no call takes.
    no_call: u32,
}

impl Tally {
    pub(crate) fn new() -> Tally {
        let none = Count { same: 0, differ: 0 };
        Tally {
            counts: [none; 8],
            no_call: 0,
        }
    }

    pub(crate) fn add(&mut self, answer: Option<(Call, bool)>) {
        match answer {
            None => self.no_call = self.no_call.saturating_add(1),
            Some((call, same)) => {
                let count = &mut self.counts[call as usize - 1];
                if same {
                    count.same = count.same.saturating_add(1);
                } else {
                    count.differ = count.differ.saturating_add(1);
                }
            }
        }
    }

    pub(crate) fn print(&self, rt: &impl Print) -> io::Result<()> {
        for (call, count) in CALLS.iter().zip(&self.counts) {
            let Count { same, differ } = *count;
            println!(rt; "{call}: {same} same, {differ} differ")?;
        }
        let no_call = self.no_call;
        println!(rt; "no call: 0 same, {no_call} differ")
    }
}
