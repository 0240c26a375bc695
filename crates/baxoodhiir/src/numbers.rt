// What is said of a request for what a copy lacks, or of saving one, in numbers.
ghost use Rattle.std.specs.Prelude.{◌≡◌};
ghost use Rattle.rules_server.specs.RefusalNumbers.{numbered};
ghost use Rattle.baxoodhiir.specs.Numbers.{number_said, length_said};

use rules_server::Refusal;

// 0 of what is written, or the number of a refusal; its length, 0 of a refusal.
#[derive(Clone, Copy)]
pub struct Numbers {
    pub number: usize,
    pub length: usize,
}

// The numbers of what is said.
pub fn numbers_said(said: Result<usize, Refusal>) -> Numbers
    ensures { result ≡ record { number = number_said (numbered said); length = length_said (numbered said) } }
{
    match said {
        Ok(length) => Numbers { number: 0, length },
        Err(refusal) => Numbers {
            number: refusal.number(),
            length: 0,
        },
    }
}
