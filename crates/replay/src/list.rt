// A line of the list: a comment, which begins with '#', or bytes in upper-case hex, one space apart.
ghost use Rattle.std.specs.Prelude.{◌<◌, ◌≤◌, length, IfSome};

// The bytes of a line, which are put at the front of `bytes`, or `None` where it is not bytes in hex, or too long.
pub(crate) fn unhex<'a>(line: &[u8], bytes: &'a mut [u8]) -> Option<&'a [u8]>
    ensures { IfSome result (λ read. length read.now ≤ length bytes.old) }
{
    let n = line.len().div_ceil(3);
    let bytes = bytes.get_mut(..n)?;
    for (byte, digits) in bytes.iter_mut().zip(line.chunks(3)) {
        *byte = byte_of(digits)?;
    }
    Some(bytes)
}

// A byte is two digits. A space or a newline is behind them, or nothing.
fn byte_of(digits: &[u8]) -> Option<u8> {
    match *digits {
        [high, low] | [high, low, b' ' | b'\n'] => Some(value(high)? << 4 | value(low)?),
        _ => None,
    }
}

fn value(digit: u8) -> Option<u8>
    ensures { IfSome result (λ value. value < 16) }
{
    match digit {
        b'0'..=b'9' => Some(digit - b'0'),
        b'A'..=b'F' => Some(digit - b'A' + 10),
        _ => None,
    }
}
