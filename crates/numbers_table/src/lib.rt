// The numbers that the scope says to hold and marks P, as one table, and the proof that it holds. There is no code here.
#![tactic(auto)]
