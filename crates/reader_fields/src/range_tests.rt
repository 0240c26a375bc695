// Questions to the value of a Content-Range field.
ghost use Rattle.std.specs.Prelude.{◌≡◌};
ghost use Rattle.rules_tablet.specs.Fields.{is_wrong, is_foreign};
ghost use Rattle.rules_tablet.specs.Heads.{has_range};

use rules_tablet::RangeField;

pub fn has_range(x: RangeField) -> bool
    ensures { result ≡ has_range x }
{
    !matches!(x, RangeField::Absent)
}

// The field is wrong for a copy of n bytes.
pub fn is_wrong(x: RangeField, n: usize) -> bool
    ensures { result ≡ is_wrong n x }
{
    match x {
        RangeField::Span(a, b) => b < a || n <= b,
        RangeField::Of(a, b, s) => b < a || s <= b || n <= b,
        _ => true,
    }
}

// The stated length is not n.
pub fn is_foreign(x: RangeField, n: usize) -> bool
    ensures { result ≡ is_foreign n x }
{
    matches!(x, RangeField::Of(_, _, s) if s != n)
}
