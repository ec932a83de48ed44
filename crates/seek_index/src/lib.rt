// What a seek index beside an ima4 run is, and what its calls come to: definitions, and what follows from them alone. There is no code here.
#![tactic(auto)]
