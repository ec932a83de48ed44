// Reads the oracle's recorded answers, makes every call again, and prints for each call how many
// answers are the same and how many differ. data/answers.txt says how it was made, and what a line
// of it is.
#![tactic(auto)]

mod call;
mod check;
mod fields;
mod list;
mod tally;

use call::Call;
use fields::Fields;
use input::read_full;
use list::unhex;
use std::{fs, io};
use tally::Tally;

// The longest lines are those of a block: the call, a state of three bytes, 34 bytes, 64 samples and a state.
const LONGEST: usize = 169;

fn main(rt: HostRuntime) -> io::Result<()> {
    let path = "answers.txt";
    let mut file = match fs::open(&rt, path) {
        Ok(file) => file,
        Err(e) => return eprintln!(rt; "{path}: {e}"),
    };
    let mut text = [0u8; 131072];
    let n = read_full(&mut file, &mut text)?;
    if n == text.len() {
        println!(rt; "the list is too long")
    } else {
        replay(&rt, &text[..n])
    }
}

fn replay(rt: &impl Print, text: &[u8]) -> io::Result<()> {
    let mut tally = Tally::new();
    for line in text.split_inclusive(|b| *b == b'\n') {
        if !line.starts_with(b"#") {
            tally.add(answer(line));
        }
    }
    tally.print(rt)
}

// The call that a line has, and whether its answer is the recorded one; or `None` where no call takes the line.
fn answer(line: &[u8]) -> Option<(Call, bool)> {
    let mut bytes = [0u8; LONGEST];
    let mut fields = Fields {
        rest: unhex(line, &mut bytes)?,
    };
    let call = Call::numbered(fields.byte()?)?;
    let same = check::is_same(call, &mut fields)?;
    fields.rest.is_empty().then_some((call, same))
}
