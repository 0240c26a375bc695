// A reader that is kept in place, begun anew: the function on records by value, with the record stored back.
ghost use Rattle.reader.specs.Begun.{Begun};

use rules_tablet::Reader;

// The record becomes a reader of a new answer.
pub fn begin(reader: &mut Reader)
    ensures { Begun reader.new }
{
    *reader = reader::fresh::begin();
}
