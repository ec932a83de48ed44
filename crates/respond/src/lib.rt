// Answers the record that a reader has, to a writer: all that the programs `repack` and `repack_lenient` do.
#![tactic(auto)]

ghost use Rattle.std.specs.Prelude.{take, OnOk, IfSome};
ghost use Rattle.std.specs.Io.KnownBytes.{Appends, Consumes};
ghost use Rattle.answer.specs.Answer.{answer_to};

use answer::{ROOM, answer};
use input::read_full;
use ms_block::Reading;
use std::io;
use std::io::{Read, Write};

// One byte more than the longest record has, so that extra bytes are seen.
const LONGEST: usize = 4101;

// The answer is to all the bytes that the reader has, of which at most 4,101 are read. Where a read or a write fails, nothing is said of what
// was written.
pub fn respond<R: Read, W: Write>(reading: Reading, input: &mut R, output: &mut W) -> io::Result<()>
    ensures reads { OnOk result (IfSome (R.remaining input.old) (λ bytes. Consumes (R.remaining input.old) (R.remaining input.new) (take 4101 bytes))) }
    ensures answers { OnOk result (IfSome (R.remaining input.old) (λ bytes. Appends (W.contents output.old) (W.contents output.new) (answer_to reading bytes))) }
{
    let mut record = [0u8; LONGEST];
    let n = read_full(input, &mut record)?;
    let mut text = [0u8; ROOM];
    let end = answer(reading, &record[..n], &mut text);
    output.write_all(&text[..end])
}
