// The lines that a program prints: a refusal, and what changed. Each stands at the start of the program's buffer. It is put piece by piece, since `write!` may fail (text),
// and into an array whose length says that there is room for all of it: at the end of a sheet some pieces would stand without the others.
#![tactic(auto)]

ghost use Rattle.std.specs.Prelude.{◌≤◌, length};
ghost use Rattle.loss.specs.Loss.{report_in};
ghost use Rattle.text.specs.Text.{Puts, Stands};
ghost use Rattle.lines.specs.Lines.{refusal_line, place_text, change_line};

use loss::Loss;
use text::Sheet;

// The longest answer: three numbers of ten digits at most, among 22 other bytes, and a block of 4,096 bytes in hex.
pub const ROOM: usize = 8245;

// `refused N`, for every number: more than a `Refusal` has.
pub fn put_refusal(number: u8, out: &mut [u8; ROOM]) -> usize
    ensures { Stands out.old 0 (refusal_line number) result out.new }
{
    let mut refused = Sheet { out, at: 0 };
    refused.put(b"refused ");
    refused.put_decimal(u32::from(number));
    refused.put(b"\n");
    refused.at
}

// `changed C first F peak P`
pub fn put_change(loss: Loss, out: &mut [u8; ROOM]) -> usize
    ensures { Stands out.old 0 (change_line (report_in loss)) result out.new × (result ≤ 52) }
{
    let mut changed = Sheet { out, at: 0 };
    changed.put(b"changed ");
    changed.put_decimal(loss.count);
    changed.put(b" first ");
    put_place(&mut changed, loss.first);
    changed.put(b" peak ");
    changed.put_decimal(u32::from(loss.peak));
    changed.put(b"\n");
    changed.at
}

// A place, or `-` for none.
fn put_place(sheet: &mut Sheet, first: Option<u32>)
    ensures { Puts (place_text first) sheet.old sheet.new × (length (place_text first) ≤ 10) }
{
    match first {
        Some(k) => sheet.put_decimal(k),
        None => sheet.put(b"-"),
    }
}
