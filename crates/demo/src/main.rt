// Codes a few samples by both laws and decodes them again, and prints what became of each. Then it cuts
// two ima4 blocks apart, and prints what the second decodes to with the first one's state, without it, and
// by way of an index.
#![tactic(auto)]

mod cut;
mod laws;

use std::io;

fn main(rt: HostRuntime) -> io::Result<()> {
    for sample in [0, -4, 1000, -1000, 32767, -32768] {
        laws::show(&rt, sample)?;
    }
    cut::show(&rt)
}
