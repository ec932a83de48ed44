// The record that the program `repack` reads.
#![tactic(auto)]

ghost use Rattle.std.specs.Prelude.{◌≡◌};
ghost use Rattle.refusal.specs.Refusal.{answered};
ghost use Rattle.record.specs.Record.{record_in, well_formed, read_record};

use halves::join;
use refusal::Refusal;

// `length` says how much of the array is the block. (A slice of the input would say both, but `read` promises what the array holds.)
#[derive(Drop)]
pub struct Record {
    pub channels: u8,
    pub length: usize,
}

#[tactic(auto, using(crate::proofs::Formed::enough), unfolding(crate::specs::Record::read_record))]
pub fn read(input: &[u8], block: &mut [u8; 4096]) -> Result<Record, Refusal>
    ensures { answered record_in (0, 0) result block.new ≡ read_record input.now block.old }
{
    if !well_formed(input) {
        return Err(Refusal::Record);
    }
    let given = &input[4..];
    let length = given.len();
    block[..length].copy_from_slice(given);
    Ok(Record {
        channels: input[3],
        length,
    })
}

// That four bytes are there is tested first; then a length below 2 is not that of the input.
#[tactic(auto, unfolding(crate::specs::Record::well_formed))]
fn well_formed(input: &[u8]) -> bool
    ensures { result ≡ well_formed input.now }
{
    if input.len() < 4 {
        return false;
    }
    let rest = join(input[0], input[1]);
    rest <= 4098 && input.len() == 2 + rest && input[2] == 1
}
