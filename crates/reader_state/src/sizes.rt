// The sizes of the arrays that a reader's line, kept tag and boundary stand in.
ghost use Rattle.std.specs.Prelude.{◌≡◌};
ghost use Rattle.reader_state.specs.Sizes.{sizes_fit};

use rules_server::Limits;
use rules_tablet::Reader;

// The arrays of a line, a kept tag and a boundary have their sizes, and the lengths are within them.
pub fn has_sizes(
    line: usize,
    tag: usize,
    boundary: usize,
    line_len: usize,
    tag_len: usize,
    boundary_len: usize,
) -> bool
    ensures { result ≡ sizes_fit line tag boundary line_len tag_len boundary_len }
{
    line == Reader::MAX_LINE
        && tag == Limits::MAX_TAG
        && boundary == Limits::MAX_BOUNDARY
        && line_len <= Reader::MAX_LINE
        && tag_len <= Limits::MAX_TAG
        && boundary_len <= Limits::MAX_BOUNDARY
}
