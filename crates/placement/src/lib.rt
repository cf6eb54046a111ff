// What a caller places for a variable argument list, and the reader finds again (docs/REFERENCE.md, 15), as theorems. No code.

#![tactic(auto)]
