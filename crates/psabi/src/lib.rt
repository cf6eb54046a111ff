// Row 0 is the System V psABI: a theorem in proofs/, about the definitions in specs/. No code.

#![tactic(auto)]
