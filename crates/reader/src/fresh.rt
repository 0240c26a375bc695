// A fresh reader, which keeps its rule beside every copy.
ghost use Rattle.reader.specs.Begun.{Begun};

use rules_tablet::Reader;

// A reader of a new answer.
pub fn begin() -> Reader
    ensures { Begun result }
{
    Reader::fresh()
}
