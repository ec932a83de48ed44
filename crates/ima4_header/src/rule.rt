// Whether a decoder keeps its own state at a header.
ghost use Rattle.std.specs.Prelude.{◌≡◌};
ghost use Rattle.adpcm_ima.specs.View.{state_of};
ghost use Rattle.ima4_block.specs.Header as Header;

use adpcm_ima::AdpcmImaState;

// The decoder's own index counts raw.
pub(crate) fn keeps(own: AdpcmImaState, head: AdpcmImaState) -> bool
    ensures { result ≡ Header.keeps (state_of own) (state_of head) }
{
    own.step_index == head.step_index && near(own.predictor, head.predictor)
}

fn near(p: i16, h: i16) -> bool
    ensures { result ≡ Header.near p h }
{
    h.saturating_sub(127) <= p && p <= h.saturating_add(127)
}
