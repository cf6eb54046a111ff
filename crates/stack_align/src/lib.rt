// The alignment of an aggregate in the argument area (docs/REFERENCE.md, 9.7).
#![tactic(auto)]

ghost use Rattle.std.specs.Prelude.{◌≡◌};
ghost use Rattle.shape.specs.Words.{pieces_of};
ghost use Rattle.rows.specs.Row.{listed};
ghost use Rattle.stack_align.specs.InMemory.{packed_align, in_memory_by};
ghost use Rattle.stack_align.specs.Limits.{list_limit};

use describe::{Banks, StackArgs, Terms, Test};
use rows::Rules;
use shape::Shape;

// What a fixed argument that travels as Memory is aligned to in the argument area.
#[tactic(auto, unfolding(crate::specs::InMemory::in_memory_by))]
pub fn in_memory(terms: Terms, arguments: Rules, shape: Shape, words: &[u64]) -> u64
    ensures { result ≡ in_memory_by terms (listed arguments) shape (pieces_of words.now) }
{
    match terms.stack_args {
        StackArgs::RegisterSized => shape.align,
        StackArgs::Packed => packed_align(terms.banks, arguments, shape, words),
    }
}

// In a packed area a homogeneous aggregate keeps its alignment, and any other is on a word boundary at least.
fn packed_align(banks: Banks, arguments: Rules, shape: Shape, words: &[u64]) -> u64
    ensures { result ≡ packed_align banks (listed arguments) shape (pieces_of words.now) }
{
    let found = match homogeneous_limit(arguments) {
        Some(limit) => find::homogeneous(shape, words, limit),
        None => None,
    };
    match found {
        Some(_) => shape.align,
        None => shape.align.max(banks.integer_width),
    }
}

// The limit of the first rule for homogeneous aggregates in a list.
fn homogeneous_limit(list: Rules) -> Option<u64>
    ensures { result ≡ list_limit (listed list) }
{
    for rules in list {
        if let Test::Homogeneous(limit) = rows::first_test(rules) {
            return Some(limit);
        }
    }
    None
}
