// Reading into a buffer that is lent: all that there is, or as much as fits.
#![tactic(auto)]

ghost use Rattle.std.specs.Prelude.{◌≡◌, ◌<◌, ◌≤◌, ℕ, length, take, IfOk, OnErr};
ghost use Rattle.std.specs.Io.KnownBytes.{Consumes, IsAtEnd};

use std::io;
use std::io::Read;

// Reads until `buf` is full or the input ends, and answers how many bytes it put at the start of `buf`. What a read leaves behind its own
// bytes is not known, so that nothing is said of the rest of `buf`. (Of the library's methods, `read_exact` does not say how many bytes there
// were, and `read_to_end` needs a heap.)
pub fn read_full<R: Read>(input: &mut R, buf: &mut [u8]) -> io::Result<usize>
    ensures room { length buf.new ≡ length buf.old }
    ensures within { IfOk result (λ n. n ≤ length buf.new) }
    ensures bytes { IfOk result (λ n. Consumes (R.remaining input.old) (R.remaining input.new) (take n buf.new)) }
    ensures end { IfOk result (λ n. n < length buf.new → IsAtEnd (R.remaining input.new)) }
    ensures err { OnErr result ((n : ℕ) × Consumes (R.remaining input.old) (R.remaining input.new) (take n buf.new)) }
{
    let mut done = 0;
    // a count stands for `loop`, which would have to be proved to end: only interruptions could reach it
    for _ in 0..u64::MAX {
        if done >= buf.len() {
            return Ok(done);
        }
        match input.read(&mut buf[done..]) {
            Ok(0) => return Ok(done),
            Ok(n) => done += n,
            Err(e) if e.kind() == io::ErrorKind::Interrupted => {}
            Err(e) => return Err(e),
        }
    }
    Err(io::Error::from(io::ErrorKind::Interrupted))
}
