// The program's arguments. What they are no contract can say.
ghost use Rattle.std.specs.Prelude.{◌≡◌, ◌≤◌, IfSome, length, replicate};

use std::env::FillError;
use std::rt::Env;

// A buffer for a word, all zero.
pub fn word() -> [u8; 4096]
    ensures { result ≡ replicate 4096 0 }
{
    [0; 4096]
}

// The i-th argument, at the front of a buffer: none where there is no such argument, or where it is longer than the buffer.
pub fn argument<'a>(rt: &impl Env, i: usize, buffer: &'a mut [u8]) -> Option<&'a [u8]>
    ensures { IfSome result (λ w. length w.now ≤ length buffer.old) }
{
    let n = rt.arg(i, buffer).ok()?;
    Some(&buffer[..n])
}

// There is no i-th argument.
fn is_missing(rt: &impl Env, i: usize) -> bool {
    matches!(rt.arg(i, &mut []), Err(FillError::NotPresent))
}

// How many arguments there are, the program's name being the first.
pub fn argument_count(rt: &impl Env) -> usize {
    (0..usize::MAX)
        .find(|i| is_missing(rt, *i))
        .unwrap_or(usize::MAX)
}

// The i-th argument fits the buffer for a word.
pub fn fits(rt: &impl Env, i: usize) -> bool {
    rt.arg(i, &mut word()).is_ok()
}

// The arguments up to the n-th fit.
pub fn do_fit(rt: &impl Env, n: usize) -> bool {
    (1..=n).all(|i| fits(rt, i))
}
