// Nested types into pieces: each scalar leaf of the type wanted becomes one piece at the sum of its parents' offsets. The rules are those of
// docs/REFERENCE.md, 4.5.
#![tactic(auto)]

ghost use Rattle.std.specs.Prelude.{◌≡◌, ◌≤◌, min, length};
ghost use Rattle.shape.specs.Words.{piece_words, put_at};
ghost use Rattle.types.specs.Entries.{members_from};
ghost use Rattle.flatten.specs.Flattened.{row_told, flatten_answer, flatten_written};
ghost use Rattle.flatten.specs.Writing.{over_members, over_elements, step_of, entry_pieces, next_at, pour_at, pour_words};

use shape::{PIECE, Piece, Refusal};
use types::{Form, Lists, Row};

// How many pieces were written, and the type's size and alignment; or the refusal.
#[repr(C)]
#[derive(Clone, Copy, Default)]
pub struct Flattened {
    pub refusal: u64,
    pub pieces: u64,
    pub size: u64,
    pub align: u64,
}

// The pieces of the last entry's type, at the front of the buffer. A refusal writes nothing.
pub fn flatten(types: &[u64], members: &[u64], out: &mut [u64]) -> Flattened
    ensures { (result ≡ flatten_answer types.now members.now out.old) × (out.new ≡ flatten_written types.now members.now out.old) }
{
    if types.len() > types::SHORT_TABLE {
        return flatten_within::<{ types::LONG_TABLE }>(types, members, out);
    }
    flatten_within::<{ types::SHORT_TABLE }>(types, members, out)
}

// The same, by a table of so many words: as many as the list has, or may have.
fn flatten_within<const N: usize>(types: &[u64], members: &[u64], out: &mut [u64]) -> Flattened
    requires { (min (length types.now) 4096 ≤ N) × (N ≤ 4096) }
    ensures { (result ≡ flatten_answer types.now members.now out.old) × (out.new ≡ flatten_written types.now members.now out.old) }
{
    let mut table = [0u64; N];
    flatten_by(types, members, &mut table, out)
}

fn flatten_by(types: &[u64], members: &[u64], table: &mut [u64], out: &mut [u64]) -> Flattened
    requires { min (length types.now) 4096 ≤ length table.old }
    ensures { (result ≡ flatten_answer types.now members.now out.old) × (out.new ≡ flatten_written types.now members.now out.old) }
{
    match write_wanted(Lists { types, members }, table, out) {
        Ok(row) => Flattened {
            refusal: shape::ACCEPTED,
            pieces: row.leaves,
            size: shape::round_up(row.reach, row.align),
            align: row.align,
        },
        Err(refusal) => Flattened {
            refusal: refusal.number(),
            ..Flattened::default()
        },
    }
}

// Writes the pieces of the last entry's type: its row.
fn write_wanted(lists: Lists<'_>, table: &mut [u64], out: &mut [u64]) -> Result<Row, Refusal>
    requires { min (length lists.types.now) 4096 ≤ length table.old }
    ensures { (row_told result ≡ flatten_answer lists.entry.types.now lists.entry.members.now out.old) × (out.new ≡ flatten_written lists.entry.types.now lists.entry.members.now out.old) }
{
    lists.measure(table)?;
    let last = (lists.entries() - 1) as u64;
    let row = types::row_at(table, last);
    if row.leaves > checks::MOST_PIECES as u64 {
        return Err(Refusal::NoRoom);
    }
    if row.leaves > (out.len() / PIECE) as u64 {
        return Err(Refusal::NoRoom);
    }
    if row.leaves > 0 {
        let measured = Measured { lists, table };
        measured.write_type(out, last, 0, 0, types::MOST_LEVELS);
    }
    Ok(row)
}

// Lists and the rows of their entries.
// kept: the buffer and the place in it stay two parameters of each function: a struct with the buffer lent in it would have the place handed back
// through it, and each contract would name both as it does now.
#[derive(Clone, Copy)]
struct Measured<'a> {
    lists: Lists<'a>,
    table: &'a [u64],
}

impl<'a> Measured<'a> {
    // Writes the pieces of an entry's type, down to so many levels: the place behind them. It is called only for a type that has a leaf: an empty
    // record under fifteen arrays of 1,024 would have it go on for years, and write nothing.
    #[cycle(writing)]
    fn write_type(&self, out: &mut [u64], e: u64, base: u64, at: usize, levels: u64) -> usize
        ensures { (result ≡ pour_at (entry_pieces self.now.lists.types.now self.now.lists.members.now self.now.table.now levels e base) out.old at) × (out.new ≡ pour_words (entry_pieces self.now.lists.types.now self.now.lists.members.now self.now.table.now levels e base) out.old at) }
    {
        if levels == 0 {
            return at;
        }
        match self.lists.form(e) {
            Form::One(s) => put(out, at, s.at(base)),
            Form::Members {
                overlaid,
                first,
                count,
            } => self.write_members(out, overlaid, first, count, base, at, levels - 1),
            Form::Elements { element, count } => {
                self.write_elements(out, element, count, base, at, levels - 1)
            }
        }
    }

    // The members of a record or a union, from the first.
    #[cycle(writing)]
    fn write_members(
        &self,
        out: &mut [u64],
        overlaid: bool,
        first: u64,
        count: u64,
        base: u64,
        at: usize,
        levels: u64,
    ) -> usize
        ensures { (result ≡ pour_at (over_members (entry_pieces self.now.lists.types.now self.now.lists.members.now self.now.table.now levels) self.now.table.now overlaid base 0 (members_from self.now.lists.members.now first count)) out.old at) × (out.new ≡ pour_words (over_members (entry_pieces self.now.lists.types.now self.now.lists.members.now self.now.table.now levels) self.now.table.now overlaid base 0 (members_from self.now.lists.members.now first count)) out.old at) }
    {
        let mut to = at;
        let mut end: u64 = 0;
        for i in 0..count {
            let m = self.lists.member(first, i);
            let row = types::row_at(self.table, m);
            let offset = types::place(overlaid, end, row.align);
            let start = base.saturating_add(offset);
            if row.leaves > 0 {
                to = self.write_type(out, m, start, to, levels);
            }
            end = offset.saturating_add(row.takes);
        }
        to
    }

    // The elements of an array, a rounded size apart.
    #[cycle(writing)]
    fn write_elements(
        &self,
        out: &mut [u64],
        element: u64,
        count: u64,
        base: u64,
        at: usize,
        levels: u64,
    ) -> usize
        ensures { (result ≡ pour_at (over_elements (entry_pieces self.now.lists.types.now self.now.lists.members.now self.now.table.now levels element) (step_of self.now.table.now element) base 0 count) out.old at) × (out.new ≡ pour_words (over_elements (entry_pieces self.now.lists.types.now self.now.lists.members.now self.now.table.now levels element) (step_of self.now.table.now element) base 0 count) out.old at) }
    {
        let row = types::row_at(self.table, element);
        let step = shape::round_up(row.reach, row.align);
        let mut to = at;
        let mut end: u64 = 0;
        for _ in 0..count {
            to = self.write_type(out, element, base.saturating_add(end), to, levels);
            end = end.saturating_add(step);
        }
        to
    }
}

// Writes a piece where it fits: the place behind it, or the same one.
#[tactic(auto, using(crate::proofs::Pour::next_fits, crate::proofs::Pour::next_short, crate::proofs::Pour::next_within))]
fn put(out: &mut [u64], at: usize, piece: Piece) -> usize
    ensures { (result ≡ next_at out.old at) × (out.new ≡ put_at out.old at (piece_words piece)) }
{
    if shape::put_piece(out, at, piece) {
        return at + PIECE;
    }
    at
}
