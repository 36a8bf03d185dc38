// Which policies a list of a model can decide, and which list it is: definitions in specs/ and their laws in proofs/. There is no code here.
#![tactic(auto)]
