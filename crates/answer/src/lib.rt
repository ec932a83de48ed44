// What the programs `repack` and `repack_lenient` answer to a record, as the bytes that they print.
#![tactic(auto)]

ghost use Rattle.std.specs.Prelude.{◌≡◌, ◌≤◌, ◌++◌, length, take};
ghost use Rattle.ms_block.specs.Block.{decoded_ms_block};
ghost use Rattle.ms_block.specs.Sizes.{samples_of};
ghost use Rattle.text.specs.Text.{hex, line, Stands};
ghost use Rattle.lines.specs.Lines.{change_line};
ghost use Rattle.answer.specs.Answer.{loss_of, first_line, answer_for, answer_to};
ghost use Rattle.answer.specs.Private.{Small};

pub use lines::ROOM;
use lines::{put_change, put_refusal};
use loss::loss_report;
use ms_block::Reading;
use ms_decode::decode_adpcm_ima_ms;
use ms_layout::samples;
use record::read;
use repacking::repack_adpcm_ima_ms;
use text::Sheet;

// Puts the answer at the start of `out`, and says how long it is. That it is so long in `out` too follows; it is stated for `&out[..n]`.
pub fn answer(reading: Reading, input: &[u8], out: &mut [u8; ROOM]) -> usize
    ensures stands { Stands out.old 0 (answer_to reading input.now) result out.new }
    ensures within { (result ≤ length out.new) × (result ≡ length (take result out.new)) }
{
    let mut block = zero_bytes();
    match read(input, &mut block) {
        Ok(record) => answer_block(reading, record.channels, &block[..record.length], out),
        Err(malformed) => put_refusal(malformed.number(), out),
    }
}

// The answer to a block: what repacking made of it, and then the new block.
fn answer_block(reading: Reading, channels: u8, block: &[u8], out: &mut [u8; ROOM]) -> usize
    requires { length block.now ≤ 4096 }
    ensures { Stands out.old 0 (answer_for reading channels block.now) result out.new }
{
    let n = block.len();
    let mut made = zero_bytes();
    match repack_adpcm_ima_ms(reading, channels, block, &mut made[..n]) {
        Ok(changed) => {
            let repacked = Repacked {
                channels,
                given: block,
                made: &made[..n],
            };
            repacked.put_lines(changed, out)
        }
        Err(refusal) => put_refusal(refusal.number(), out),
    }
}

// A block that repacking took, and what it made of it.
#[derive(Clone, Copy)]
struct Repacked<'a> {
    channels: u8,
    given: &'a [u8],
    made: &'a [u8],
    ghost small: { Small channels given.now },
    ghost alike: { length made.now ≡ length given.now },
}

impl Repacked<'_> {
    // The first line, and then the new block.
    fn put_lines(self, changed: bool, out: &mut [u8; ROOM]) -> usize
        ensures { Stands out.old 0 (line (first_line changed (loss_of self.entry.channels self.entry.given.now self.entry.made.now) ++ hex self.entry.made.now)) result out.new }
    {
        let at = self.put_first_line(changed, out);
        let mut sheet = Sheet { out, at };
        sheet.put_hex(self.made);
        sheet.put(b"\n");
        sheet.at
    }

    // The first line: `same`, or what changed.
    fn put_first_line(self, changed: bool, out: &mut [u8; ROOM]) -> usize
        ensures { Stands out.old 0 (first_line changed (loss_of self.entry.channels self.entry.given.now self.entry.made.now)) result out.new × (result ≤ 52) }
    {
        if changed {
            return self.put_loss(out);
        }
        let mut same = Sheet { out, at: 0 };
        same.put(b"same\n");
        same.at
    }

    // What became of the samples.
    fn put_loss(self, out: &mut [u8; ROOM]) -> usize
        ensures { Stands out.old 0 (change_line (loss_of self.entry.channels self.entry.given.now self.entry.made.now)) result out.new × (result ≤ 52) }
    {
        let m = samples(self.channels, self.given.len());
        let before = samples_of(self.channels, self.given);
        let after = samples_of(self.channels, self.made);
        put_change(loss_report(&before[..m], &after[..m]).unwrap(), out)
    }
}

// The samples of a block that repacking has accepted, by whichever reading, at the start of an array. There are two a byte, less seven for each
// channel. So of 4,096 bytes one channel has the most samples, 8,185, and eight channels have no more.
fn samples_of(channels: u8, block: &[u8]) -> [i16; 8185]
    requires { Small channels block.now }
    ensures { (length result ≡ 8185) × (take (samples_of channels (length block.now)) result ≡ decoded_ms_block channels block.now) }
{
    let m = samples(channels, block.len());
    let mut out = zero_samples();
    decode_adpcm_ima_ms(Reading::Lenient, channels, block, &mut out[..m]).unwrap();
    out
}

// The arrays that a block and its samples sit in, of fixed memory and in the scope's own form, so they are no one function over a type and a length. What is not written
// there is never read, so that their lengths are all that counts.
fn zero_bytes() -> [u8; 4096]
    ensures { length result ≡ 4096 }
{
    [0; 4096]
}

fn zero_samples() -> [i16; 8185]
    ensures { length result ≡ 8185 }
{
    [0; 8185]
}
