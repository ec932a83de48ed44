// What an MS block is repacked to: definitions, and what follows from them alone. There is no code here.
#![tactic(auto)]
