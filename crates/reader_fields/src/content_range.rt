// The value of a Content-Range.
ghost use Rattle.std.specs.Prelude.{◌≡◌, unwrap_or};
ghost use Rattle.rules_server.specs.Numerals.{decimal};
ghost use Rattle.rules_server.specs.Ranges.{digits, after_digits};
ghost use Rattle.rules_tablet.specs.Fields.{span_field, length_field, stated_field, last_field, first_field, range_field};
ghost use Rattle.reader_fields.specs.Marks.{digits_to};
ghost use Rattle.rules_tablet.specs.declared.RangeField.TheVariants.{Wrong};

use numerals::bounded::bounded;
use numerals::counts::count_digits;
use numerals::digits::all_digits;
use octets::texts::BYTES_RANGE;
use rules_server::Limits;
use rules_tablet::RangeField;

// first and last, by their digits, without a length; none where the field is wrong, as in each part of it.
fn span_field(first: &[u8], last: &[u8]) -> Option<RangeField>
    ensures { unwrap_or result Wrong ≡ span_field (decimal first.now) (decimal last.now) }
{
    let a = bounded(first, Limits::MAX_FILE)?;
    let b = bounded(last, Limits::MAX_FILE)?;
    Some(RangeField::Span(a, b))
}

// first, last and the stated length, by their digits.
fn length_field(first: &[u8], last: &[u8], stated: &[u8]) -> Option<RangeField>
    ensures { unwrap_or result Wrong ≡ length_field (decimal first.now) (decimal last.now) (decimal stated.now) }
{
    let a = bounded(first, Limits::MAX_FILE)?;
    let b = bounded(last, Limits::MAX_FILE)?;
    let n = bounded(stated, Limits::MAX_FILE)?;
    Some(RangeField::Of(a, b, n))
}

// Behind the `/`: a length or `*`.
fn stated_field(first: &[u8], last: &[u8], t: &[u8]) -> Option<RangeField>
    ensures { unwrap_or result Wrong ≡ stated_field (decimal first.now) (decimal last.now) t.now }
{
    match t {
        [b'*'] => span_field(first, last),
        [_, ..] if all_digits(t) => length_field(first, last, t),
        _ => None,
    }
}

// How many digits stand at the front, where there are some and the mark is behind them.
fn digits_before(t: &[u8], mark: u8) -> Option<usize>
    ensures { result ≡ digits_to mark t.now }
{
    let k = count_digits(t);
    (0 < k && t.get(k) == Some(&mark)).then_some(k)
}

// Behind the `-`: the digits of last, then `/`.
fn last_field(first: &[u8], t: &[u8]) -> Option<RangeField>
    ensures { unwrap_or result Wrong ≡ last_field (decimal first.now) (digits t.now) (after_digits t.now) }
{
    let k = digits_before(t, b'/')?;
    stated_field(first, &t[..k], &t[k + 1..])
}

// Behind `bytes `: the digits of first, then `-`.
fn first_field(t: &[u8]) -> Option<RangeField>
    ensures { unwrap_or result Wrong ≡ first_field (digits t.now) (after_digits t.now) }
{
    let k = digits_before(t, b'-')?;
    last_field(&t[..k], &t[k + 1..])
}

// What a Content-Range says.
#[tactic(auto, unfolding(rules_tablet::specs::Fields::range_field))]
pub fn range_field(v: &[u8]) -> RangeField
    ensures { result ≡ range_field v.now }
{
    match v.strip_prefix(&BYTES_RANGE) {
        Some(rest) => first_field(rest).unwrap_or(RangeField::Wrong),
        None => RangeField::Wrong,
    }
}
