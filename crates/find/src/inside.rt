// The tests that look inside a shape: each finds slots or nothing, and writes nothing. Those that find pieces find a slot for each, so they
// answer with counts, and `slot_writing::put_pieces` writes the slots of whichever found them. The rules are those of docs/REFERENCE.md, 7.
ghost use Rattle.std.specs.Prelude.{◌≡◌, [], ◌∷◌};
ghost use Rattle.shape.specs.Words.{pieces_of};
ghost use Rattle.slots.specs.Search.{found_of};
ghost use Rattle.find.specs.Find as find;

use shape::{Piece, Shape};
use slots::Found;

// What a test of the shape as a whole finds.
pub const NO_SLOTS: Found = Found {
    count: 0,
    floats: 0,
};

// The bytes of a complex of two Singles.
const COMPLEX_FLOAT: u64 = 8;

// One float, or two pieces with a float among them, each no wider than a register of its bank.
#[tactic(auto, using(crate::proofs::Tests::pair_one, crate::proofs::Tests::pair_two, crate::proofs::Tests::pair_none))]
pub fn float_pair(words: &[u64], integer_width: u64, float_width: u64) -> Option<Found>
    ensures { result ≡ found_of (find.float_pair integer_width float_width (pieces_of words.now)) }
{
    let first = shape::piece_at(words, 0);
    match words.len() / shape::PIECE {
        1 => one_member(first, integer_width, float_width),
        2 => two_members(
            first,
            shape::piece_at(words, shape::PIECE),
            integer_width,
            float_width,
        ),
        _ => None,
    }
}

#[tactic(auto, using(crate::proofs::Tests::member))]
fn one_member(only: Piece, integer_width: u64, float_width: u64) -> Option<Found>
    ensures { result ≡ found_of (find.float_pair integer_width float_width (only ∷ [])) }
{
    let found = only.is_float() & fits_one(only, integer_width, float_width);
    found.then_some(Found {
        count: 1,
        floats: 1,
    })
}

#[tactic(auto, using(crate::proofs::Tests::members_integers, crate::proofs::Tests::members))]
fn two_members(first: Piece, second: Piece, integer_width: u64, float_width: u64) -> Option<Found>
    ensures { result ≡ found_of (find.float_pair integer_width float_width (first ∷ second ∷ [])) }
{
    let floats = u64::from(first.is_float()) + u64::from(second.is_float());
    if floats == 0 {
        return None;
    }
    let fit = fits_one(first, integer_width, float_width)
        & fits_one(second, integer_width, float_width);
    fit.then_some(Found { count: 2, floats })
}

// Whether one register of its bank holds a piece.
#[tactic(auto, unfolding(crate::specs::Find::fits_one))]
fn fits_one(p: Piece, integer_width: u64, float_width: u64) -> bool
    ensures { result ≡ find.fits_one integer_width float_width p }
{
    let width = if p.is_float() {
        float_width
    } else {
        integer_width
    };
    p.size <= width
}

// One x87 value, or the two of a complex.
#[tactic(auto, using(crate::proofs::Tests::x87_not, crate::proofs::Tests::x87_few))]
pub fn x87_stack(shape: Shape, words: &[u64]) -> Option<Found>
    ensures { result ≡ found_of (find.x87_stack shape (pieces_of words.now)) }
{
    let count = (words.len() / shape::PIECE) as u64;
    let few = (count == 1) | ((count == 2) & shape.complex);
    if !few {
        return None;
    }
    shape::is_all_of(words, shape::X87_EXTENDED).then_some(Found {
        count,
        floats: count,
    })
}

// One piece that is a Single or a Double.
#[tactic(auto, using(crate::proofs::Tests::lone_none, crate::proofs::Tests::lone))]
pub fn lone_float(words: &[u64]) -> Option<Found>
    ensures { result ≡ found_of (find.lone_float (pieces_of words.now)) }
{
    if words.len() / shape::PIECE != 1 {
        return None;
    }
    let p = shape::piece_at(words, 0);
    let found = (p.kind == shape::SINGLE) | (p.kind == shape::DOUBLE);
    found.then_some(Found {
        count: 1,
        floats: 1,
    })
}

// A complex, or a shape of a floating mode; it finds no slot.
#[tactic(auto, using(crate::proofs::Tests::mode))]
pub fn floating_mode(shape: Shape) -> Option<Found>
    ensures { result ≡ found_of (find.floating_mode shape) }
{
    (shape.complex | shape.floating).then_some(NO_SLOTS)
}

// A complex of Singles that takes eight bytes; it finds no slot.
#[tactic(auto, using(crate::proofs::Tests::complex_none, crate::proofs::Tests::complex_eight))]
pub fn complex_float(shape: Shape, words: &[u64]) -> Option<Found>
    ensures { result ≡ found_of (find.complex_float shape (pieces_of words.now)) }
{
    let eight = shape.complex & (shape.size == COMPLEX_FLOAT);
    if !eight {
        return None;
    }
    shape::is_all_of(words, shape::SINGLE).then_some(NO_SLOTS)
}
