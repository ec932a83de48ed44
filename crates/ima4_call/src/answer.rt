// What a call comes back with.
ghost use Rattle.std.specs.Prelude.{◌≡◌, Err};
ghost use Rattle.adpcm_ima.specs.View.{state_of};
ghost use Rattle.refusal.specs.Refusal.{hears};

use adpcm_ima::AdpcmImaState;
use refusal::{Refusal, Refused};

// The state behind what is done; or the refusal, with the state as it came.
pub type Answer = Result<AdpcmImaState, Refused<AdpcmImaState>>;

// For lengths that do not fit.
pub fn refuse(state: AdpcmImaState) -> Answer
    ensures { hears state_of result ≡ (3, state_of state) }
{
    Err(Refused {
        refusal: Refusal::Blocks,
        given: state,
    })
}
