// What the test of a rule finds in a shape (docs/REFERENCE.md, 7): whether it matches, and the slots that it finds if it looks inside. The rule
// walk asks here rule by rule; the slots of the rule that decides are written later, by the crate slot_writing. The tests that look at the
// pieces stand in `inside`, but for the one with a loop of its own, which is in `alike`; that for eightbytes is a crate.
#![tactic(auto)]

mod alike;
mod inside;

ghost use Rattle.std.specs.Prelude.{◌≡◌};
ghost use Rattle.shape.specs.Words.{pieces_of};
ghost use Rattle.find.specs.Matches.{is_one_of, matched, matched_by, found_where, no_classes};

pub use alike::homogeneous;
use describe::{Banks, Test};
use eightbytes::{Class, Classified};
use inside::NO_SLOTS;
pub use inside::{complex_float, float_pair, floating_mode, lone_float, x87_stack};
use shape::Shape;
use slots::{Found, Source};

// What a test finds, with the slots beside it: where they stand, and the classes of eightbytes.
#[derive(Clone, Copy)]
pub struct Matched {
    pub found: Option<Found>,
    pub source: Source,
    pub classes: [Class; 8],
}

// Whether a test matches, and the slots that it finds if it looks inside. Nothing is written to a lent buffer here.
pub fn matches(banks: Banks, test: Test, shape: Shape, words: &[u64]) -> Matched
    ensures { result ≡ matched_by banks test shape (pieces_of words.now) }
{
    match test {
        Test::Anything => whole(true),
        Test::Empty => whole(shape.size == 0),
        Test::SizeOneOf(n, a, b, c, d) => whole(is_one_of(shape.size, n, a, b, c, d)),
        Test::SizeAtMost(limit) => whole(shape.size <= limit),
        Test::Homogeneous(limit) => in_slots(homogeneous(shape, words, limit), Source::EachPiece),
        Test::FloatPair => in_slots(
            float_pair(words, banks.integer_width, banks.float_width),
            Source::EachPiece,
        ),
        Test::X87Stack => in_slots(x87_stack(shape, words), Source::EachPiece),
        Test::LoneFloat => in_slots(lone_float(words), Source::EachPiece),
        Test::FloatingMode => in_slots(floating_mode(shape), Source::Empty),
        Test::ComplexFloat => in_slots(complex_float(shape, words), Source::Empty),
        Test::Eightbytes(limit) => {
            let Classified { found, classes } = eightbytes::eightbytes(shape, words, limit);
            Matched {
                found,
                source: Source::Classes { size: shape.size },
                classes,
            }
        }
    }
}

// Whether a size is one of the first so many of four.
// kept: word for word as the definition, and without the loop that an array of the four would bring.
fn is_one_of(size: u64, n: u64, a: u64, b: u64, c: u64, d: u64) -> bool
    ensures { result ≡ is_one_of size n a b c d }
{
    ((n > 0) & (size == a))
        | ((n > 1) & (size == b))
        | ((n > 2) & (size == c))
        | ((n > 3) & (size == d))
}

// A test of the shape as a whole: it finds no slot.
fn whole(holds: bool) -> Matched
    ensures { result ≡ matched (found_where holds) Source.Empty no_classes }
{
    in_slots(holds.then_some(NO_SLOTS), Source::Empty)
}

// What was found, where its slots don't stand in classes.
fn in_slots(found: Option<Found>, source: Source) -> Matched
    ensures { result ≡ matched found source no_classes }
{
    Matched {
        found,
        source,
        classes: [Class::None; 8],
    }
}
