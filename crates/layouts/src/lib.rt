// Records from their members: the pieces of a record whose members are these scalars, and the shape of a record whose pieces are these.
// The rules are those of docs/REFERENCE.md, 4.2 and 4.3.
#![tactic(auto)]

ghost use Rattle.std.specs.Prelude.{◌≡◌};
ghost use Rattle.shape.specs.Words.{pieces_of};
ghost use Rattle.shape.specs.Refusals.{refusal_of};
ghost use Rattle.layouts.specs.Answers.{placed_told, record_told};
ghost use Rattle.layouts.specs.Members.{members_refusal, pieces_answer, pieces_written};
ghost use Rattle.layouts.specs.Record.{largest_align, furthest_end, is_floating, record_answer};

use checks::{MOST_OFFSET, MOST_PIECES, check_list, check_pieces, check_scalar};
use shape::{PIECE, Refusal, SCALAR, Shape, each_piece, each_scalar, put_piece, round_up};

// How many pieces were written: each member at the next offset that it fits, as pieces at the front of the buffer. A refusal writes nothing.
#[tactic(auto, using(crate::proofs::Members::pieces_laws))]
pub fn pieces(members: &[u64], out: &mut [u64]) -> Result<u64, Refusal>
    ensures answer { placed_told result ≡ pieces_answer members.now out.old }
    ensures words { out.new ≡ pieces_written members.now out.old }
{
    check_members(members)?;
    let count = members.len() / SCALAR;
    if count > out.len() / PIECE {
        return Err(Refusal::NoRoom);
    }
    // kept: of a buffer lent out in chunks (chunks_exact_mut) no proof knows what was written, so each piece is put at its place.
    let mut to = 0;
    let mut end = 0;
    for s in each_scalar(members) {
        let offset = round_up(end, s.align);
        put_piece(out, to, s.at(offset));
        end = offset + s.size;
        to += PIECE;
    }
    Ok(count as u64)
}

// The record that these pieces make, sized and aligned the way C would. It has a floating point mode when its one piece is a float that fills it.
#[tactic(auto, using(crate::proofs::Making::record_laws))]
pub fn record(words: &[u64]) -> Result<Shape, Refusal>
    ensures { record_told result ≡ record_answer words.now }
{
    check_list(words)?;
    check_pieces(words)?;
    if words.is_empty() {
        return Ok(Shape {
            size: 0,
            align: 1,
            complex: false,
            floating: false,
        });
    }
    let align = largest_align(words);
    if align == 0 {
        return Err(Refusal::BadAlign);
    }
    let size = round_up(furthest_end(words), align);
    if size > MOST_OFFSET {
        return Err(Refusal::BadSize);
    }
    Ok(Shape {
        size,
        align,
        complex: false,
        floating: is_floating(words, size),
    })
}

fn largest_align(words: &[u64]) -> u64
    ensures { result ≡ largest_align (pieces_of words.now) }
{
    each_piece(words).fold(0, |best, p| best.max(p.align))
}

fn furthest_end(words: &[u64]) -> u64
    ensures { result ≡ furthest_end (pieces_of words.now) }
{
    each_piece(words).fold(0, |best, p| best.max(p.end()))
}

// Whether these are one piece, a float that fills this size.
#[tactic(auto, unfolding(crate::specs::Record::is_floating))]
fn is_floating(words: &[u64], size: u64) -> bool
    ensures { result ≡ is_floating size (pieces_of words.now) }
{
    let mut pieces = each_piece(words);
    match (pieces.next(), pieces.next()) {
        (Some(p), None) => p.is_float() && p.size == size,
        _ => false,
    }
}

// The refusal of a record's members: the words don't make whole scalars, or too many; then the scalars from the first.
// kept: check_list with the record's words as a parameter is a function and a definition more for one test.
#[tactic(auto, using(shape::proofs::Words::length_scalars, checks::proofs::Check::else_number), unfolding(crate::specs::Members::members_refusal, crate::specs::Members::scalars_refusal))]
fn check_members(members: &[u64]) -> Result<(), Refusal>
    ensures { refusal_of result ≡ members_refusal members.now }
{
    let n = members.len();
    if n % SCALAR != 0 || n / SCALAR > MOST_PIECES {
        return Err(Refusal::BadList);
    }
    for s in each_scalar(members) {
        check_scalar(s)?;
    }
    Ok(())
}
