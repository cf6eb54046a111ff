// What is asked and changes nothing of a call (REFERENCE 13.2 to 13.6), for C: each function hands on what it is handed to the one of its name
// in export_questions, and states its clauses again (docs/DECISIONS.md, "A crate for each operation").
#![tactic(auto)]

mod alignment;
mod descriptions;
mod lookups;
mod members;
mod version;
