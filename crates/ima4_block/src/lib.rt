// What ima4 blocks, and runs of them, decode to and are encoded to: definitions, and what follows from them alone. There is no code here.
#![tactic(auto)]
