// What a call of feed leaves (document 01, "The tablet's copy and reader"), of the parts that it works on.
ghost use Rattle.std.specs.Prelude.{◌≡◌};
ghost use Rattle.rules_tablet.specs.Parsers.{report_of};
ghost use Rattle.reader.specs.Calls.{end_of, Rejected};

use copy::runs::RunList;
use rules_server::Refusal;
use rules_tablet::{Copy, Reader, Report, Stage};

// What a call of feed leaves: the copy, the reader, how many bytes of the piece were taken, and what the reader says.
#[derive(Clone, Copy)]
pub struct Fed {
    pub copy: Copy,
    pub reader: Reader,
    pub taken: usize,
    pub report: Report,
}

// What the reader says.
fn report_of(stage: Stage) -> Report
    ensures { result ≡ report_of stage }
{
    match stage {
        Stage::Finished => Report::Finished,
        Stage::Refused(k) => Report::Refused(k),
        _ => Report::More,
    }
}

// What a call leaves behind so many bytes.
pub(crate) fn ended(c: Copy, l: RunList, r: Reader, count: usize) -> Fed
    ensures { result ≡ end_of c l r count }
{
    let runs = l.runs;
    Fed {
        copy: Copy {
            runs,
            count: l.count,
            ..c
        },
        reader: r,
        taken: count,
        report: report_of(r.stage),
    }
}

// Nothing taken or changed.
pub(crate) fn rejected(c: Copy, kept: Reader) -> Fed
    ensures { Rejected c kept result }
{
    Fed {
        copy: c,
        reader: kept,
        taken: 0,
        report: Report::Refused(Refusal::Record.number()),
    }
}
