// The positions that the value of a Content-Range field spans.
ghost use Rattle.std.specs.Prelude.{◌≡◌, min};
ghost use Rattle.rules_tablet.specs.Fields.{first_of, last_of};
ghost use Rattle.rules_tablet.specs.Heads.{span_of};

use rules_tablet::RangeField;

pub fn first_of(x: RangeField) -> usize
    ensures { result ≡ first_of x }
{
    match x {
        RangeField::Span(a, _) | RangeField::Of(a, _, _) => a,
        _ => 0,
    }
}

fn last_of(x: RangeField) -> usize
    ensures { result ≡ last_of x }
{
    match x {
        RangeField::Span(_, b) | RangeField::Of(_, b, _) => b,
        _ => 0,
    }
}

// How many positions first to last are, clipped to a usize.
pub fn span_of(x: RangeField) -> usize
    ensures { result ≡ min (span_of x) 18446744073709551615 }
{
    match last_of(x).checked_sub(first_of(x)) {
        Some(more) => more.saturating_add(1),
        None => 0,
    }
}
