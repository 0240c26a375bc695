// A buffer of one byte repeated, which shows what a call wrote.
ghost use Rattle.std.specs.Prelude.{◌≡◌, length, replicate};
ghost use Rattle.program_io.specs.Fills.{every};

// Makes every byte of v a b.
pub fn fill(v: &mut [u8], b: u8)
    ensures { v.new ≡ replicate (length v.old) b }
{
    v.fill(b);
}

// Every byte of v is b.
pub fn is_filled(v: &[u8], b: u8) -> bool
    ensures { result ≡ every b v.now }
{
    v.iter().all(|x| *x == b)
}
