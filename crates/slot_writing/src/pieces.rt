// A slot for each piece of a shape, for whichever test found them (docs/REFERENCE.md, 7).
ghost use Rattle.std.specs.Prelude.{◌≡◌};
ghost use Rattle.shape.specs.Words.{pieces_of};
ghost use Rattle.slots.specs.Words.{written};
ghost use Rattle.find.specs.Find.{piece_slot, each_piece};

use shape::Piece;
use slots::Slot;

// A slot for each piece at the front of the buffer, where they all fit.
pub fn put_pieces(words: &[u64], out: &mut [u64])
    ensures { out.new ≡ written (each_piece (pieces_of words.now)) out.old }
{
    if words.len() / shape::PIECE > slots::room(out.len()) {
        return;
    }
    // kept: a place that is counted, since of a buffer lent out in chunks (chunks_exact_mut) no proof knows what was written.
    let mut to = 0;
    for p in shape::each_piece(words) {
        slots::put_slot(out, to, slot_of(p));
        to += slots::SLOT;
    }
}

// A piece's own slot.
#[tactic(auto, using(crate::proofs::EachPiece::slot_zero, crate::proofs::EachPiece::slot_sized))]
fn slot_of(p: Piece) -> Slot
    ensures { result ≡ piece_slot p }
{
    let size = if p.is_float() { 0 } else { p.size };
    Slot {
        kind: p.kind,
        offset: p.offset,
        size,
    }
}
