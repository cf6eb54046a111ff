// The proof that descriptions 30 to 32 are the RISC-V psABI (docs/REFERENCE.md, 12). No code.

#![tactic(auto)]
