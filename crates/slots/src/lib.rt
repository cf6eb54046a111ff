// Slots go out as words, three to a slot: kind, offset, size (0 for a float). Only this crate knows how many words a slot has.
// The rules are those of docs/REFERENCE.md, 1.3 and 4.4.
#![tactic(auto)]

ghost use Rattle.std.specs.Prelude.{◌≡◌, ◌/◌, length};
ghost use Rattle.shape.specs.Questions.{is_float};
ghost use Rattle.shape.specs.Words.{put_at};
ghost use Rattle.slots.specs.Words.{slot_size, slot_words, written};
ghost use Rattle.slots.specs.Cut.{cut};

// Words of a slot.
pub const SLOT: usize = 3;

// No result needs more slots: classify proves it.
pub const MOST_SLOTS: usize = 8;

// Words of a buffer with room for all of them.
pub const MOST_WORDS: usize = MOST_SLOTS * SLOT;

// One register's worth of an aggregate, and which of its bytes go there.
#[derive(Clone, Copy)]
pub struct Slot {
    pub kind: u64,
    pub offset: u64,
    pub size: u64,
}

impl Slot {
    // Whether it is a float register rather than an integer one.
    pub fn is_float(self) -> bool
        ensures { result ≡ is_float self.kind }
    {
        self.kind != shape::INTEGER
    }
}

// What a search inside a shape found: how many slots, and how many of them are floats. The slots themselves stand beside it; a search that
// found nothing answers None.
#[derive(Clone, Copy, PartialEq, Eq)]
pub struct Found {
    pub count: u64,
    pub floats: u64,
}

// Where the slots of a value that travels as Pieces stand: there are none, each piece of the shape is one, the classes of its eightbytes say
// them for its size, a size is cut into integers, or there is the one that is given.
#[derive(Clone, Copy)]
pub enum Source {
    Empty,
    EachPiece,
    Classes { size: u64 },
    Cut { size: u64, width: u64 },
    One { kind: u64, offset: u64, size: u64 },
}

// How many slots fit in a buffer of this many words.
pub fn room(words: usize) -> usize
    ensures { result ≡ words / slot_size }
{
    words / SLOT
}

// Cuts a size into integer slots of a width, the last holding what is left: how many, written to the front where they all fit.
pub fn integer_slots(size: u64, width: u64, out: &mut [u64]) -> u64
    ensures { (result ≡ length (cut size width)) × (out.new ≡ written (cut size width) out.old) }
{
    let count = parts(size, width);
    let w = width.max(1);
    if count > room(out.len()) as u64 {
        return count;
    }
    // kept: of a buffer lent out in chunks (chunks_exact_mut) no proof knows what was written, so each slot is put at its place.
    for i in 0..count {
        let offset = i * w;
        let part = (size - offset).min(w);
        put_slot(
            out,
            SLOT * i as usize,
            Slot {
                kind: shape::INTEGER,
                offset,
                size: part,
            },
        );
    }
    count
}

// How many parts of a width a size has, the last perhaps smaller. No width counts as 1.
pub fn parts(size: u64, width: u64) -> u64
    ensures { result ≡ length (cut size width) }
{
    size.div_ceil(width.max(1))
}

// Writes a slot from a place of the buffer on, where it fits.
pub fn put_slot(out: &mut [u64], at: usize, s: Slot)
    ensures { out.new ≡ put_at out.old at (slot_words s) }
{
    if out.len().saturating_sub(at) < SLOT {
        return;
    }
    out[at..at + SLOT].copy_from_slice(&[s.kind, s.offset, s.size]);
}
