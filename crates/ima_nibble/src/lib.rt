// One nibble of IMA ADPCM, nibbles in a row and the step table: definitions, and what follows from them alone. There is no code here.
#![tactic(auto)]
