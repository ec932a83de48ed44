// What an encoder's largest miss is to the loss report: definitions and theorems, and no code.
#![tactic(auto)]
