// The numbers that the scope says to hold, in its order, each as the proved calls give it; the file stdout has them as they must be. Those
// that are marked P are proved besides, as one table: the crate numbers_table.
#![tactic(auto)]

mod laws;
mod lengths;
mod mono;
mod nibbles;
mod state;
mod zeros;

use std::io;

fn main(rt: HostRuntime) -> io::Result<()> {
    nibbles::show(&rt)?;
    mono::show(&rt)?;
    laws::show(&rt)?;
    zeros::show(&rt)?;
    lengths::show(&rt)
}
