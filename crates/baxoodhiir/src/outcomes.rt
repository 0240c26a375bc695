// What the server end says of a request, in numbers.
ghost use Rattle.std.specs.Prelude.{◌≡◌};
ghost use Rattle.rules_server.specs.RefusalNumbers.{numbered};
ghost use Rattle.baxoodhiir.specs.Numbers.{reason_number, status_in, reason_in, length_in};

use rules_server::{Answered, Reason, Refusal};

// The status of an answer, or the number of a refusal; the number of the reason and the length, both 0 of a refusal.
#[derive(Clone, Copy)]
pub struct OutcomeNumbers {
    pub says: usize,
    pub reason: usize,
    pub length: usize,
}

// The number of a reason, in the table of reasons.
fn reason_number(reason: Reason) -> usize
    ensures { result ≡ reason_number reason }
{
    match reason {
        Reason::Head => 1,
        Reason::None => 2,
        Reason::Long => 3,
        Reason::Unit => 4,
        Reason::Malformed => 5,
        Reason::Many => 6,
        Reason::ChangedFile => 7,
        Reason::Invalid => 8,
        Reason::Unsatisfiable => 9,
        Reason::Empty => 10,
        Reason::Partial => 11,
    }
}

// The numbers of an outcome.
pub fn numbers_of(o: Result<Answered, Refusal>) -> OutcomeNumbers
    ensures { result ≡ record { says = status_in (numbered o); reason = reason_in (numbered o); length = length_in (numbered o) } }
{
    match o {
        Ok(answered) => OutcomeNumbers {
            says: answered.status,
            reason: reason_number(answered.reason),
            length: answered.length,
        },
        Err(refusal) => OutcomeNumbers {
            says: refusal.number(),
            reason: 0,
            length: 0,
        },
    }
}
