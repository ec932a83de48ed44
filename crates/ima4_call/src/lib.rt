// The lengths of ima4 blocks and runs that a call takes, and what it comes back with.
#![tactic(auto)]

mod answer;
mod sizes;

pub use answer::{Answer, refuse};
pub use sizes::{is_block, is_run};
