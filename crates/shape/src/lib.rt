// What a classifier is asked about: kinds, scalars, pieces and shapes, and the refusals. Pieces come in as words, four to a piece: kind, size,
// alignment, offset. Whether it may be asked, the crate checks says. The rules are those of docs/REFERENCE.md, 1, 2, 4.1 and 4.2.
#![tactic(auto)]

ghost use Rattle.std.specs.Prelude.{◌≡◌, ◌-◌, ◌<◌, ◌≤◌, min, max, ◌+◌, leb, length, ◌/◌, ℕ, List, map, drop};
ghost use native.Mathlib.Omega.{arith};
ghost use Rattle.shape.specs.Numbers.{one_if};
ghost use Rattle.shape.specs.Arithmetic.{plus, times, rounded};
ghost use Rattle.shape.specs.Words.{piece, pieces_of, pieces_left, scalars_of, scalars_left, piece_from, scalar_from, piece_at, scalar_at, put_at, piece_size, piece_words};
ghost use Rattle.shape.specs.Questions.{integer_of, float_of, is_float, end_of, is_all_of};
ghost use Rattle.shape.specs.Refusals.{number_of};
ghost use Rattle.std.specs.Iterator.{YieldsFirst, item_count};
ghost use Rattle.std.specs.Simd.{first_chunks};

use std::marker::PhantomData;

mod refusals;

pub use refusals::Refusal;

// Kinds: an integer, or a float in one of four formats.
pub const INTEGER: u64 = 0;

pub const SINGLE: u64 = 1;

pub const DOUBLE: u64 = 2;

pub const X87_EXTENDED: u64 = 3;

pub const QUAD: u64 = 4;

// Forms of what a call is asked about, where it comes as numbers: in a record of a sheet, and over a bridge.
pub const FORM_VOID: u64 = 0;

pub const FORM_SCALAR: u64 = 1;

pub const FORM_AGGREGATE: u64 = 2;

// Refusals: 0 is none.
pub const ACCEPTED: u64 = 0;

pub const BAD_ABI: u64 = 1;

pub const BAD_CALL: u64 = 2;

pub const BAD_LIST: u64 = 3;

pub const BAD_KIND: u64 = 4;

pub const BAD_SIZE: u64 = 5;

pub const BAD_ALIGN: u64 = 6;

pub const NO_ROOM: u64 = 7;

pub const BAD_AREA: u64 = 8;

pub const BAD_EXTENT: u64 = 9;

pub const BAD_TYPE: u64 = 10;

pub const TOO_DEEP: u64 = 11;

// The largest number of 64 bits.
pub const MOST_WORD: u64 = 18446744073709551615;

// Words of a scalar and of a piece.
pub const SCALAR: usize = 3;

pub const PIECE: usize = 4;

// What a scalar is, as numbers that anyone may hand in: a kind above 4 is refused, not impossible.
#[derive(Clone, Copy, Debug, Default, PartialEq, Eq)]
pub struct Scalar {
    pub kind: u64,
    pub size: u64,
    pub align: u64,
}

impl Scalar {
    // An integer of this size, aligned to itself.
    pub fn integer(size: u64) -> Scalar
        ensures { result ≡ integer_of size }
    {
        Scalar {
            kind: INTEGER,
            size,
            align: size,
        }
    }

    // A float in this format, of this size, aligned to itself.
    pub fn float(format: u64, size: u64) -> Scalar
        ensures { result ≡ float_of format size }
    {
        Scalar {
            kind: format,
            size,
            align: size,
        }
    }

    pub fn is_float(self) -> bool
        ensures { result ≡ is_float self.kind }
    {
        self.kind != INTEGER
    }

    // The piece that this scalar is at an offset.
    pub fn at(self, offset: u64) -> Piece
        ensures { result ≡ piece self.kind self.size self.align offset }
    {
        Piece {
            kind: self.kind,
            size: self.size,
            align: self.align,
            offset,
        }
    }
}

// One scalar inside an aggregate, at its offset.
#[derive(Clone, Copy, Debug, Default, PartialEq, Eq)]
pub struct Piece {
    pub kind: u64,
    pub size: u64,
    pub align: u64,
    pub offset: u64,
}

impl Piece {
    pub fn is_float(self) -> bool
        ensures { result ≡ is_float self.kind }
    {
        self.kind != INTEGER
    }

    // One past the last byte that it covers, an empty piece counting as one byte; the largest number where that passes 64 bits.
    pub fn end(self) -> u64
        ensures { result ≡ end_of self }
    {
        self.offset.saturating_add(self.size.max(1))
    }
}

// An aggregate; its pieces stand beside it, as words.
#[derive(Clone, Copy)]
pub struct Shape {
    pub size: u64,
    pub align: u64,
    pub complex: bool,
    pub floating: bool,
}

// What a call is asked about: a return value or an argument. The pieces of an aggregate stand beside it, as words.
#[derive(Clone, Copy)]
pub enum Arg {
    Void,
    Scalar(Scalar),
    Aggregate(Shape),
}

// Whether some words hold a piece and every piece is of this kind.
#[tactic(auto, using(crate::proofs::Questions::all_where_any, crate::proofs::Questions::not_all_none), unfolding(crate::specs::Questions::all_of))]
pub fn is_all_of(words: &[u64], kind: u64) -> bool
    ensures { result ≡ is_all_of kind (pieces_of words.now) }
{
    for piece in each_piece(words) {
        if piece.kind != kind {
            return false;
        }
    }
    words.len() >= PIECE
}

// What stands in words, N to a record.
pub trait Record<const N: usize> {
    ghost of: { List ℕ → Self };

    fn from_words(words: [u64; N]) -> Self
        ensures { result ≡ of words.entry };

    ghost some: { 0 < N };

    ghost few: { N < 64 };
}

impl Record<PIECE> for Piece {
    ghost of = { piece_from };

    fn from_words(words: [u64; PIECE]) -> Piece
        ensures { result ≡ piece_from words }
    {
        let [kind, size, align, offset] = words;
        Piece {
            kind,
            size,
            align,
            offset,
        }
    }

    ghost some = { Prim.omega arith };

    ghost few = { Prim.omega arith };
}

impl Record<SCALAR> for Scalar {
    ghost of = { scalar_from };

    fn from_words(words: [u64; SCALAR]) -> Scalar
        ensures { result ≡ scalar_from words }
    {
        let [kind, size, align] = words;
        Scalar { kind, size, align }
    }

    ghost some = { Prim.omega arith };

    ghost few = { Prim.omega arith };
}

// The records of some words, from the first; words behind the last whole record are none. A place beside all of them takes a loop an instruction
// less for each record than a slice of those that are left.
#[derive(Drop)]
pub struct Records<'a, T, const N: usize> {
    all: &'a [[u64; N]],
    at: usize,
    record: PhantomData<T>,
}

pub type Pieces<'a> = Records<'a, Piece, PIECE>;

pub type Scalars<'a> = Records<'a, Scalar, SCALAR>;

impl<'a, T: Record<N>, const N: usize> Records<'a, T, N> {
    fn of(words: &'a [u64]) -> Records<'a, T, N>
        ensures all { result.all.now ≡ first_chunks N (length words.now / N) words.now }
        ensures at { result.at ≡ 0 }
    {
        let (all, _) = words.as_chunks::<N>();
        Records {
            all,
            at: 0,
            record: PhantomData,
        }
    }
}

#[tactic(auto, using(crate::proofs::Words::pieces_chunks))]
pub fn each_piece(words: &[u64]) -> Pieces<'_>
    ensures { pieces_left result ≡ pieces_of words.now }
{
    Pieces::of(words)
}

#[tactic(auto, using(crate::proofs::Words::scalars_chunks))]
pub fn each_scalar(words: &[u64]) -> Scalars<'_>
    ensures { scalars_left result ≡ scalars_of words.now }
{
    Scalars::of(words)
}

impl<'a, T: Record<N>, const N: usize> Iterator for Records<'a, T, N> {
    type Item = T;

    ghost next_gives = { YieldsFirst (λ s. map T.of (drop s.at s.all.now)) };

    ghost remaining = { item_count (λ s. map T.of (drop s.at s.all.now)) };

    fn next(&mut self) -> Option<T> {
        let words = self.all.get(self.at)?;
        self.at += 1;
        Some(T::from_words(*words))
    }
}

// The piece that starts at a place of the words: all zeros where no whole piece is left there.
#[tactic(auto, using(crate::proofs::Words::no_piece), unfolding(crate::specs::Words::first_piece, crate::specs::Words::piece_at))]
pub fn piece_at(words: &[u64], at: usize) -> Piece
    ensures { result ≡ piece_at words.now at }
{
    let Some((_, rest)) = words.split_at_checked(at) else {
        return Piece::default();
    };
    match each_piece(rest).next() {
        Some(piece) => piece,
        None => Piece::default(),
    }
}

// Writes a piece from a place of the buffer on, where it fits; whether it does.
pub fn put_piece(out: &mut [u64], at: usize, piece: Piece) -> bool
    ensures { (result ≡ leb (at + piece_size) (length out.old)) × (out.new ≡ put_at out.old at (piece_words piece)) }
{
    if out.len().saturating_sub(at) < PIECE {
        return false;
    }
    out[at..at + PIECE].copy_from_slice(&[piece.kind, piece.size, piece.align, piece.offset]);
    true
}

// The scalar that starts at a place of the words: all zeros where no whole scalar is left there.
#[tactic(auto, using(crate::proofs::Words::no_scalar), unfolding(crate::specs::Words::first_scalar, crate::specs::Words::scalar_at))]
pub fn scalar_at(words: &[u64], at: usize) -> Scalar
    ensures { result ≡ scalar_at words.now at }
{
    let Some((_, rest)) = words.split_at_checked(at) else {
        return Scalar::default();
    };
    match each_scalar(rest).next() {
        Some(scalar) => scalar,
        None => Scalar::default(),
    }
}

// The next multiple of `a`, where 0 counts as 1, or the largest number where that passes 64 bits.
#[tactic(auto, using(crate::proofs::Rounding::over_less, crate::proofs::Rounding::rounds_exact, crate::proofs::Rounding::rounds_over))]
pub fn round_up(n: u64, a: u64) -> u64
    ensures { result ≡ rounded n a }
{
    let step = a.max(1);
    let over = n % step;
    if over == 0 {
        return n;
    }
    n.saturating_add(step - over)
}
