// The pieces of a type with types inside it (REFERENCE 13.3), for C: each function hands on what it is handed to the one of its name in
// export_flatten, and states its clauses again (docs/DECISIONS.md, "A crate for each operation").
#![tactic(auto)]

ghost use Rattle.std.specs.Prelude.{◌≡◌};
ghost use Rattle.flatten.specs.Flattened.{flatten_answer, flatten_written};

use flatten::Flattened;

// The pieces of the last type of the list, and its size and alignment.
#[unsafe(no_mangle)]
pub extern "C" fn barkpaddle_flatten(
    types: &[u64],
    members: &[u64],
    pieces: &mut [u64],
) -> Flattened
    ensures { (result ≡ flatten_answer types.now members.now pieces.old) × (pieces.new ≡ flatten_written types.now members.now pieces.old) }
{
    export_flatten::barkpaddle_flatten(types, members, pieces)
}
