// Reads one record from standard input, and prints what repacking made of its block, in lenient reading.
#![tactic(auto)]

use ms_block::Reading;
use respond::respond;
use std::io;

fn main(rt: HostRuntime) -> io::Result<()> {
    respond(Reading::Lenient, &mut rt.stdin(), &mut rt.stdout())
}
