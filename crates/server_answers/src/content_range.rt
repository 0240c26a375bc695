// Writing Content-Range of a part into a lent buffer, with its CR LF.
ghost use Rattle.std.specs.Prelude.{◌++◌};
ghost use Rattle.rules_server.specs.Texts.{crlf};
ghost use Rattle.rules_server.specs.Answers.{range_line};
ghost use Rattle.writing.specs.Window.{Wrote};

use octets::texts::{RANGE_FRONT, SLASH};
use rules_server::Run;
use writing::window::Writer;

// Content-Range of a part of a file of n bytes.
pub fn put_range_field(w: &mut Writer, r: Run, n: usize)
    ensures { Wrote (range_line r n ++ crlf) w.old w.new }
{
    w.put(&RANGE_FRONT);
    w.put_range(r.first, r.last);
    w.put(&SLASH);
    w.put_number(n);
    w.put_line_end();
}
