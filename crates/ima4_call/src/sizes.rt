// The lengths that a call takes.
ghost use Rattle.std.specs.Prelude.{◌≡◌};
ghost use Rattle.ima4_block.specs.Call as Call;

pub fn is_block(bytes: usize, samples: usize) -> bool
    ensures { result ≡ Call.is_block bytes samples }
{
    bytes == 34 && samples == 64
}

// 1,024 is tested first, so that no product is too large.
pub fn is_run(bytes: usize, samples: usize) -> bool
    ensures { result ≡ Call.is_run bytes samples }
{
    let n = bytes / 34;
    n <= 1024 && bytes == 34 * n && samples == 64 * n
}
