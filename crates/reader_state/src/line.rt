// One byte of a line.
ghost use Rattle.std.specs.Prelude.{◌≡◌, ◌≤◌, take, drop};
ghost use Rattle.rules_tablet.specs.Limits.{max_line};
ghost use Rattle.rules_tablet.specs.Lines.{line_step};
ghost use Rattle.reader_state.specs.States.{LineSized, line_meaning, length_of};
ghost use Rattle.reader_state.specs.declared.LineOut.TheVariants.{Broken};

use crate::LineOut;
use reader_fields::bytes::is_line_byte;
use rules_tablet::Reader;

// One byte of a line whose first len bytes are in the array; broken where the array has not its size or len is not within it.
pub fn line_byte(line: &mut [u8], len: usize, cr: bool, b: u8) -> LineOut
    ensures step { LineSized len line.old → line_meaning result len line.new ≡ line_step (take len line.old) cr b }
    ensures front { take len line.new ≡ take len line.old }
    ensures room { len ≤ max_line → length_of result len ≤ max_line }
    ensures beyond { drop (length_of result len) line.new ≡ drop (length_of result len) line.old }
    ensures other { (LineSized len line.old → ⊥) → (result ≡ Broken) × (line.new ≡ line.old) }
{
    if line.len() != Reader::MAX_LINE || Reader::MAX_LINE < len {
        return LineOut::Broken;
    }
    match b {
        b'\n' if cr => LineOut::Whole,
        b'\r' if !cr => LineOut::Ending,
        _ if !cr && is_line_byte(b) && len < Reader::MAX_LINE => {
            line[len] = b;
            LineOut::Going(len + 1)
        }
        _ => LineOut::Broken,
    }
}
