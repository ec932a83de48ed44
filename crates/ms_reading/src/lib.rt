// Which step indices strict reading takes: 0 to 88, in the header of every channel used. The calls that read a block ask here after its lengths.
#![tactic(auto)]

ghost use Rattle.std.specs.Prelude.{◌≡◌, get_or};
ghost use Rattle.refusal.specs.Refusal.{number_in};
ghost use Rattle.ms_block.specs.Readings.{sound_headers, read_by};

use ms_block::Reading;
use refusal::Refusal;

// Headers that are not sound are refused by 8 in strict reading, and lenient reading takes all.
pub fn check_headers(reading: Reading, channels: u8, block: &[u8]) -> Result<(), Refusal>
    ensures { number_in result ≡ read_by reading channels block.now 0 }
{
    if reading == Reading::Strict && !sound_headers(channels, block) {
        return Err(Refusal::StepIndex);
    }
    Ok(())
}

// Whether no index is above 88, in the header of any channel used. A header that is not there has none.
fn sound_headers(channels: u8, block: &[u8]) -> bool
    ensures { result ≡ sound_headers channels block.now }
{
    (0..channels as usize).all(|ch| byte_at(block, 4 * ch + 2) <= 88)
}

// The byte at a place, or 0 behind the end.
fn byte_at(block: &[u8], at: usize) -> u8
    ensures { result ≡ get_or block.now at 0 }
{
    block.get(at).copied().unwrap_or(0)
}
