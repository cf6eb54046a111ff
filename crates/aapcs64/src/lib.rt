// The proof that description 1 is AAPCS64 (docs/REFERENCE.md, 12). No code.

#![tactic(auto)]
