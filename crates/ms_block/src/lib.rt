// What an MS block is, what it decodes to, and what is encoded to one: definitions, and what follows from them alone. There is no code here
// but for a type that the definitions share with the code.
#![tactic(auto)]

// How a header with a step index above 88 is read: strict reading refuses the block, and lenient reading takes the index as 88.
#[derive(Clone, Copy, Debug, PartialEq, Eq)]
pub enum Reading {
    Strict,
    Lenient,
}
