// What a spec of a Range value asks of a file: whether it ends before it begins, and its run where it is satisfiable.
ghost use Rattle.std.specs.Prelude.{◌≡◌, false, ◌-◌, min, take, drop, option_map};
ghost use Rattle.rules_server.specs.Numerals.{decimal};
ghost use Rattle.rules_server.specs.Ranges.{meaning};
ghost use Rattle.rules_server.specs.Ranges.{span as span_of, onward as onwardOf, suffix as suffixOf};
ghost use Rattle.server_ranges.specs.Resolves.{resolution, below_of};

use numerals::bounded::bounded;
use numerals::order::less;
use numerals::zeros::without_zeros;
use rules_server::{Numeral, Run, Spec};

// A spec for a file: whether it ends before it begins, and its run where it is satisfiable.
#[derive(Clone, Copy)]
pub struct Resolved {
    pub invalid: bool,
    pub run: Option<Run>,
}

// The digits of a numeral of the text m.
fn digits_of(m: &[u8], d: Numeral) -> &[u8]
    ensures { result.now ≡ take d.len (drop d.start m.now) }
{
    let rest = m.get(d.start..).unwrap_or(&[]);
    rest.get(..d.len).unwrap_or(rest)
}

// The value of the numeral d where it is a position of n bytes.
fn below(d: &[u8], n: usize) -> Option<usize>
    ensures { result ≡ below_of n (decimal d.now) }
{
    bounded(d, n.checked_sub(1)?)
}

// The value of the numeral d, lowered to the limit where it is larger.
fn lowered(d: &[u8], limit: usize) -> usize
    ensures { result ≡ min (decimal d.now) limit }
{
    bounded(d, limit).unwrap_or(limit)
}

// first-last, by the digits of both.
#[tactic(auto, unfolding(crate::specs::Resolves::resolution))]
fn span(first: &[u8], last: &[u8], n: usize) -> Resolved
    ensures { result ≡ resolution n (span_of (decimal first.now) (decimal last.now)) }
{
    let p = without_zeros(first);
    let q = without_zeros(last);
    let last = lowered(q, n.saturating_sub(1));
    Resolved {
        invalid: less(q, p),
        run: below(p, n).map(|first| Run { first, last }),
    }
}

// From a first position, if any, to the end.
fn to_end(first: Option<usize>, n: usize) -> Resolved
    ensures { result ≡ record { invalid = false; run = option_map (λ a. record { first = a; last = n - 1 }) first } }
{
    let last = n.saturating_sub(1);
    Resolved {
        invalid: false,
        run: first.map(|first| Run { first, last }),
    }
}

// first with an open end.
#[tactic(auto, unfolding(crate::specs::Resolves::resolution))]
fn onward(first: &[u8], n: usize) -> Resolved
    ensures { result ≡ resolution n (onwardOf (decimal first.now)) }
{
    to_end(below(first, n), n)
}

// The last k bytes.
#[tactic(auto, unfolding(crate::specs::Resolves::resolution))]
fn suffix(k: &[u8], n: usize) -> Resolved
    ensures { result ≡ resolution n (suffixOf (decimal k.now)) }
{
    let first = match bounded(k, n) {
        Some(0) => None,
        Some(count) => Some(n - count),
        None => Some(0),
    };
    to_end(first, n)
}

// What a spec of the text m asks of a file of n bytes.
pub fn resolve(m: &[u8], s: Spec, n: usize) -> Resolved
    ensures { result ≡ resolution n (meaning m.now s) }
{
    match s {
        Spec::FirstLast(a, b) => span(digits_of(m, a), digits_of(m, b), n),
        Spec::From(a) => onward(digits_of(m, a), n),
        Spec::Suffix(k) => suffix(digits_of(m, k), n),
    }
}
