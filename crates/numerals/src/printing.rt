// Numbers in decimal, without leading zeros.
ghost use Rattle.std.specs.Prelude.{◌≡◌, ◌≤◌};
ghost use Rattle.rules_server.specs.Numerals.{print};
ghost use Rattle.numerals.specs.Shown.{shown};

// A number in decimal: its digits are the bytes from `start` on.
#[derive(Clone, Copy)]
pub struct Digits {
    pub bytes: [u8; 20],
    pub start: usize,
}

impl Digits {
    // The digits, none where they would begin behind the end.
    pub fn as_slice(&self) -> &[u8]
        ensures { result.now ≡ shown self.now }
    {
        self.bytes.get(self.start..).unwrap_or(&[])
    }
}

// n in decimal, without leading zeros.
pub fn printed(n: usize) -> Digits
    ensures within { result.start ≤ 20 }
    ensures digits { shown result ≡ print n }
{
    let mut bytes = [b'0'; 20];
    let mut start: usize = 20;
    let mut left = n;
    // A loop by hand: how many digits there are shows only when none is left, so a `for` over the bytes from the back counts `start` all the same.
    while 9 < left {
        start -= 1;
        bytes[start] = b'0' + (left % 10) as u8;
        left /= 10;
    }
    start -= 1;
    bytes[start] = b'0' + left as u8;
    Digits { bytes, start }
}
