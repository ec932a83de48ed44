// Why a call refuses, and the numbers that callers hear: over C they are what a call answers, and the programs print them.
#![tactic(auto)]

ghost use Rattle.std.specs.Prelude.{◌≡◌};
ghost use Rattle.refusal.specs.Refusal.{refusal_number, number_in, hears};

// Each with its number. 0 stands for done.
#[derive(Clone, Copy, Debug, PartialEq, Eq)]
pub enum Refusal {
    // The channel number is not 1 to 8.
    Channels = 1,
    // A length breaks the rules of MS blocks or of the loss report, or two lengths do not fit.
    Lengths = 2,
    // Of ima4: not 34 bytes a block, not 64 samples a block, or over 1,024 blocks.
    Blocks = 3,
    // The record that a program reads is malformed.
    Record = 4,
    // Of a seek index: k, the record or the block does not fit the run.
    Index = 5,
    // A header has a step index above 88.
    StepIndex = 8,
}

impl Refusal {
    pub fn number(self) -> u8
        ensures { result ≡ refusal_number self }
    {
        self as u8
    }
}

// A call that is given something by value and refuses hands it back as it came.
#[derive(Clone, Copy, Debug, PartialEq, Eq)]
pub struct Refused<T> {
    pub refusal: Refusal,
    pub given: T,
}

// The number that a test comes to: 0 where it passes.
pub fn number_in(tested: Result<(), Refusal>) -> u8
    ensures { result ≡ number_in tested }
{
    match tested {
        Ok(()) => 0,
        Err(refusal) => refusal.number(),
    }
}

// The number of such a call, and what comes back: what is done, or what was given.
pub fn hear<T>(answer: Result<T, Refused<T>>) -> (u8, T)
    ensures { result ≡ hears (λ x. x) answer }
{
    match answer {
        Ok(done) => (0, done),
        Err(refused) => (refused.refusal.number(), refused.given),
    }
}
