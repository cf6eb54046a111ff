// Floats that are all alike: the test for homogeneous shapes (REFERENCE 7). It finds a slot for each piece, so it answers with counts, and
// writes nothing.
ghost use Rattle.std.specs.Prelude.{◌≡◌, ◌*◌, eqb};
ghost use Rattle.shape.specs.Words.{pieces_of};
ghost use Rattle.slots.specs.Search.{found_of};
ghost use Rattle.find.specs.Find.{homogeneous as homogeneous_of};

use shape::Shape;
use slots::Found;

// Floats of one format, size and alignment, at most `limit`, that fill the shape.
pub fn homogeneous(shape: Shape, words: &[u64], limit: u64) -> Option<Found>
    ensures { result ≡ found_of (homogeneous_of limit shape (pieces_of words.now)) }
{
    let count = (words.len() / shape::PIECE) as u64;
    if count > limit {
        return None;
    }
    let mut pieces = shape::each_piece(words);
    let first = pieces.next()?;
    if !first.is_float() {
        return None;
    }
    if !fills(first.size, count, shape.size) {
        return None;
    }
    for p in pieces {
        let same = (p.kind == first.kind) & (p.size == first.size) & (p.align == first.align);
        if !same {
            return None;
        }
    }
    Some(Found {
        count,
        floats: count,
    })
}

// Whether so many of a size make up the whole.
fn fills(size: u64, count: u64, whole: u64) -> bool
    ensures { result ≡ eqb (size * count) whole }
{
    size.checked_mul(count)
        .is_some_and(|product| product == whole)
}
