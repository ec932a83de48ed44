// Texts are put on a sheet, one behind the other. A text that has no room is not put, and leaves all as it was.
#![tactic(auto)]

ghost use Rattle.std.specs.Prelude.{◌≡◌, ◌<◌, ◌*◌, length};
ghost use Rattle.text.specs.Text as Text;
ghost use Rattle.text.specs.Text.{hex, decimal, Puts};

// A buffer, and the place behind the last text.
#[derive(Drop)]
pub struct Sheet<'a> {
    pub out: &'a mut [u8],
    pub at: usize,
}

impl Sheet<'_> {
    // A text as it is.
    pub fn put(&mut self, text: &[u8])
        ensures { Puts text.now self.old self.new }
    {
        let end = self.at.saturating_add(text.len());
        if end <= self.out.len() {
            self.out[self.at..end].copy_from_slice(text);
            self.at = end;
        }
    }

    // A number in decimal. (By `write!` it would be plainer. But that may fail, and no contract says that it does not where there is room, so what stands
    // then could not be promised.)
    pub fn put_decimal(&mut self, n: u32)
        ensures { Puts (decimal n) self.old self.new }
    {
        // from the last digit to the first, by a `while`: how many there are shows only at the end
        let mut digits = [0u8; 10];
        let mut first = 9;
        let mut rest = n;
        while 10 <= rest {
            digits[first] = digit((rest % 10) as u8);
            rest /= 10;
            first -= 1;
        }
        digits[first] = digit(rest as u8);
        self.put(&digits[first..]);
    }

    // Bytes in upper-case hex. (As for a number: `write!` may fail.)
    pub fn put_hex(&mut self, bytes: &[u8])
        ensures { Puts (hex bytes.now) self.old self.new }
    {
        let n = 2 * bytes.len();
        let end = self.at.saturating_add(n);
        if end <= self.out.len() {
            write_hex(bytes, &mut self.out[self.at..end]);
            self.at += n;
        }
    }
}

// Two digits a byte. Nothing is carried from turn to turn, so the compiler takes as many bytes at once as it can.
fn write_hex(bytes: &[u8], digits: &mut [u8])
    requires { length digits.old ≡ 2 * length bytes.now }
    ensures { digits.new ≡ hex bytes.now }
{
    for k in 0..bytes.len() {
        digits[2 * k] = digit(bytes[k] / 16);
        digits[2 * k + 1] = digit(bytes[k] % 16);
    }
}

fn digit(d: u8) -> u8
    requires { d < 16 }
    ensures { result ≡ Text.digit d }
{
    if d < 10 { b'0' + d } else { b'A' + (d - 10) }
}
