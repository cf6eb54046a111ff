// The entry, exported by c_flatten, that flattens a type (REFERENCE 13.3): its lists and the buffer for its pieces come as slices.
#![tactic(auto)]

ghost use Rattle.std.specs.Prelude.{◌≡◌};
ghost use Rattle.flatten.specs.Flattened.{flatten_answer, flatten_written};

use flatten::Flattened;

// The pieces of the last type of the list, and its size and alignment.
pub fn barkpaddle_flatten(types: &[u64], members: &[u64], pieces: &mut [u64]) -> Flattened
    ensures { (result ≡ flatten_answer types.now members.now pieces.old) × (pieces.new ≡ flatten_written types.now members.now pieces.old) }
{
    flatten::flatten(types, members, pieces)
}
