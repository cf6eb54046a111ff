// Slots at the front of the lent buffer, from where they stand (docs/REFERENCE.md, 1.3). Nothing is written where there isn't room for all.
#![tactic(auto)]

mod classes;
mod pieces;

ghost use Rattle.std.specs.Prelude.{◌≡◌};
ghost use Rattle.shape.specs.Words.{pieces_of};
ghost use Rattle.slots.specs.Words.{written};
ghost use Rattle.slot_writing.specs.Sources.{source_slots, scalar_slots};

pub use classes::put_eightbytes;
use eightbytes::{Class, Eight};
pub use pieces::put_pieces;
use slots::{Slot, Source};

// The slots of a decision, from where they stand: the pieces, the classes of eightbytes or their codes, a size to be cut, or one slot.
pub fn write<E: Eight>(source: Source, classes: E, words: &[u64], out: &mut [u64])
    ensures { out.new ≡ written (source_slots source (E.eight classes) (pieces_of words.now)) out.old }
{
    write_by(source, classes.classes(), words, out);
}

fn write_by(source: Source, classes: [Class; 8], words: &[u64], out: &mut [u64])
    ensures { out.new ≡ written (source_slots source classes (pieces_of words.now)) out.old }
{
    match source {
        Source::Empty => {}
        Source::EachPiece => {
            put_pieces(words, out);
        }
        Source::Classes { size } => {
            put_eightbytes(classes, size, out);
        }
        Source::Cut { size, width } => {
            slots::integer_slots(size, width, out);
        }
        Source::One { kind, offset, size } => {
            slots::put_slot(out, 0, Slot { kind, offset, size });
        }
    }
}

// The slots of a scalar: it has no pieces and no eightbytes.
// kept: beside `write`, so that either has one caller in an operation and is inlined there (docs/DECISIONS.md, "One path for a return")
#[tactic(auto, using(crate::proofs::Writing::nothing_written), unfolding(crate::specs::Sources::scalar_slots))]
pub fn write_scalar(source: Source, out: &mut [u64])
    ensures { out.new ≡ written (scalar_slots source) out.old }
{
    match source {
        Source::Empty | Source::EachPiece | Source::Classes { .. } => {}
        Source::Cut { size: whole, width } => {
            slots::integer_slots(whole, width, out);
        }
        Source::One { kind, offset, size } => {
            slots::put_slot(out, 0, Slot { kind, offset, size });
        }
    }
}
