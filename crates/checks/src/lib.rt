// Whether a classifier may be asked: the limits of scalars, pieces and shapes, and the refusals in their order. The rules are those of
// docs/REFERENCE.md, 3.
#![tactic(auto)]

ghost use Rattle.std.specs.Prelude.{◌≡◌};
ghost use Rattle.shape.specs.Words.{pieces_of};
ghost use Rattle.shape.specs.Refusals.{refusal_of};
ghost use Rattle.checks.specs.Check.{scalar_refusal, piece_refusal, pieces_refusal, extent_refusal, list_refusal, shape_refusal, or_else};

use shape::{PIECE, Piece, QUAD, Refusal, Scalar, Shape, each_piece};

// The largest values that are accepted.
pub const MOST_SIZE: u64 = 64;

pub const MOST_OFFSET: u64 = 16777216;

pub const MOST_ALIGN: u64 = 4096;

pub const MOST_PIECES: usize = 1024;

// The refusal of a shape and its pieces: the list, the shape's size, its alignment, then the pieces from the first, then where they end.
#[tactic(auto, using(crate::proofs::Check::else_number), unfolding(crate::specs::Check::shape_refusal))]
pub fn check_shape(shape: Shape, words: &[u64]) -> Result<(), Refusal>
    ensures { refusal_of result ≡ shape_refusal shape words.now }
{
    check_list(words)?;
    if shape.size > MOST_OFFSET {
        return Err(Refusal::BadSize);
    }
    if shape.align > MOST_ALIGN {
        return Err(Refusal::BadAlign);
    }
    check_inside(shape.size, words)
}

// The refusal of some words as a list: they don't make whole pieces, or too many.
#[tactic(auto, using(shape::proofs::Words::length_pieces), unfolding(crate::specs::Check::list_refusal))]
pub fn check_list(words: &[u64]) -> Result<(), Refusal>
    ensures { refusal_of result ≡ list_refusal words.now }
{
    let n = words.len();
    if n % PIECE != 0 || n / PIECE > MOST_PIECES {
        return Err(Refusal::BadList);
    }
    Ok(())
}

// The first refusal among the pieces of some words, or that one of them ends past this size. A piece's own refusal comes before another's end,
// so how far they reach is kept to the last: the pieces are walked once.
#[tactic(auto, using(crate::proofs::Check::else_number, crate::proofs::Check::further, crate::proofs::Accepted::end_fits), unfolding(crate::specs::Check::pieces_refusal, crate::specs::Check::extent_refusal, shape::specs::Lists::any))]
fn check_inside(size: u64, words: &[u64]) -> Result<(), Refusal>
    ensures { refusal_of result ≡ or_else (pieces_refusal (pieces_of words.now)) (extent_refusal size (pieces_of words.now)) }
{
    let mut reach = 0;
    for p in each_piece(words) {
        check_piece(p)?;
        reach = reach.max(p.offset + p.size);
    }
    if reach > size {
        return Err(Refusal::BadExtent);
    }
    Ok(())
}

// The first refusal among the pieces of some words.
#[tactic(auto, using(crate::proofs::Check::else_number), unfolding(crate::specs::Check::pieces_refusal))]
pub fn check_pieces(words: &[u64]) -> Result<(), Refusal>
    ensures { refusal_of result ≡ pieces_refusal (pieces_of words.now) }
{
    for piece in each_piece(words) {
        check_piece(piece)?;
    }
    Ok(())
}

// The refusal of one piece, by kind, size, offset, alignment.
#[tactic(auto, unfolding(crate::specs::Check::piece_refusal))]
pub fn check_piece(p: Piece) -> Result<(), Refusal>
    ensures { refusal_of result ≡ piece_refusal p }
{
    if p.kind > QUAD {
        return Err(Refusal::BadKind);
    }
    if p.size > MOST_SIZE {
        return Err(Refusal::BadSize);
    }
    if p.offset > MOST_OFFSET {
        return Err(Refusal::BadSize);
    }
    if p.align > MOST_ALIGN {
        return Err(Refusal::BadAlign);
    }
    Ok(())
}

// The refusal of one scalar, by kind, size, alignment.
// kept: a piece's offset is refused between its size and its alignment, so neither of these two is the other and a test more.
#[tactic(auto, unfolding(crate::specs::Check::scalar_refusal))]
pub fn check_scalar(s: Scalar) -> Result<(), Refusal>
    ensures { refusal_of result ≡ scalar_refusal s }
{
    if s.kind > QUAD {
        return Err(Refusal::BadKind);
    }
    if s.size > MOST_SIZE {
        return Err(Refusal::BadSize);
    }
    if s.align > MOST_ALIGN {
        return Err(Refusal::BadAlign);
    }
    Ok(())
}
