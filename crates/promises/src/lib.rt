// What the stand-in promises, over the definitions that the public contracts cite: no code.
#![tactic(auto)]
