// Lists of types: entries from words, what is refused of them, and for each entry, from the first, what is asked of its type by the entries behind
// it: a table of rows. References go back, so that one pass fills it. The rules are those of docs/REFERENCE.md, 4.5.
#![tactic(auto)]

ghost use Rattle.std.specs.Prelude.{◌≡◌, ◌+◌, ◌*◌, ◌≤◌, ◌<◌, min, length, get_or};
ghost use Rattle.std.specs.Option.{MatchOption};
ghost use Rattle.std.specs.Result.{IfOk};
ghost use Rattle.shape.specs.Words.{piece_at, piece_words};
ghost use Rattle.shape.specs.Refusals.{refusal_of};
ghost use Rattle.checks.specs.Check.{unless_refused};
ghost use Rattle.types.specs.Entries.{nowhere, entry_at, entry_size, form_of, form_meaning, members_from};
ghost use Rattle.types.specs.Trees.{entries, size_refusal, lists_refusal, references_refusal, back_refusal};
ghost use Rattle.types.specs.Table.{row_at, put_row, place_from, members_row, elements_row, row_of, form_refusal, filled_refusal, filled, table_refusal, measure_refusal, level_of, level_above, Levelled};

use shape::{MOST_WORD, Refusal, Scalar, round_up};

// Words of an entry, and of its row in the table.
pub const ENTRY: usize = 4;

// Kinds of entries that aren't scalars.
pub const RECORD: u64 = 256;

pub const UNION: u64 = 257;

pub const ARRAY: u64 = 258;

// The most that is accepted of each.
pub const MOST_ENTRIES: usize = 1024;

pub const MOST_MEMBERS: usize = 4096;

pub const MOST_ELEMENTS: u64 = 1024;

pub const MOST_LEVELS: u64 = 16;

// A list of few entries has a short table, since to clear a long one takes longer than to flatten such a list.
const FEW_ENTRIES: usize = 32;

pub const SHORT_TABLE: usize = ENTRY * FEW_ENTRIES;

// The words of a table that is never too short.
pub const LONG_TABLE: usize = ENTRY * MOST_ENTRIES;

// What an entry says: one scalar, of an unknown kind too, which is refused by that; members from a place of their list on, all at 0 where they
// are overlaid; or so many of one entry.
#[derive(Clone, Copy, Debug, PartialEq, Eq)]
pub enum Form {
    One(Scalar),
    Members {
        overlaid: bool,
        first: u64,
        count: u64,
    },
    Elements {
        element: u64,
        count: u64,
    },
}

// What is asked of an entry's type: how far it moves the next member on, how far it reaches, its alignment, and its leaves, which are counted up
// to one more than are accepted.
#[derive(Clone, Copy)]
pub struct Row {
    pub takes: u64,
    pub reach: u64,
    pub align: u64,
    pub leaves: u64,
}

// A list of types and the list of their members.
#[derive(Clone, Copy)]
pub struct Lists<'a> {
    pub types: &'a [u64],
    pub members: &'a [u64],
}

impl<'a> Lists<'a> {
    // Fills a table with a row for each entry: the refusal, if there is one.
    pub fn measure(self, table: &mut [u64]) -> Result<(), Refusal>
        ensures { (refusal_of result ≡ measure_refusal self.entry.types.now self.entry.members.now table.old) × (table.new ≡ unless_refused (table_refusal self.entry.types.now self.entry.members.now table.old) (filled self.entry.types.now self.entry.members.now table.old 0 (entries self.entry.types.now)) table.old) }
    {
        self.check_lengths()?;
        self.check_references()?;
        if self.types.len() > table.len() {
            return Err(Refusal::NoRoom);
        }
        self.fill(table)
    }

    // The refusal of the lists by their lengths.
    #[tactic(auto, unfolding(crate::specs::Trees::lists_refusal))]
    fn check_lengths(self) -> Result<(), Refusal>
        ensures { refusal_of result ≡ lists_refusal self.entry.types.now self.entry.members.now }
    {
        let n = self.types.len();
        if n % ENTRY != 0 || n == 0 {
            return Err(Refusal::BadList);
        }
        if n / ENTRY > MOST_ENTRIES || self.members.len() > MOST_MEMBERS {
            return Err(Refusal::BadList);
        }
        Ok(())
    }

    // The refusal of the entries by what they refer to, and of the last one's levels.
    fn check_references(self) -> Result<(), Refusal>
        requires { (0 < entries self.types.now) × (entries self.types.now ≤ 1024) }
        ensures { refusal_of result ≡ references_refusal self.entry.types.now self.entry.members.now }
    {
        if self.entries() > FEW_ENTRIES {
            return self.check_up_to::<MOST_ENTRIES>();
        }
        self.check_up_to::<FEW_ENTRIES>()
    }

    // The same of a list of no more than so many entries: there is a word for the levels of each.
    fn check_up_to<const N: usize>(self) -> Result<(), Refusal>
        requires { (0 < entries self.types.now) × (entries self.types.now ≤ N) × (N ≤ 1024) }
        ensures { refusal_of result ≡ references_refusal self.entry.types.now self.entry.members.now }
    {
        let mut levels = [0u64; N];
        self.check_levels(&mut levels)
    }

    fn check_levels(self, levels: &mut [u64]) -> Result<(), Refusal>
        requires { (0 < entries self.types.now) × (entries self.types.now ≤ length levels.old) }
        ensures { refusal_of result ≡ references_refusal self.entry.types.now self.entry.members.now }
    {
        self.find_levels(levels)?;
        if levels[self.entries() - 1] > MOST_LEVELS {
            return Err(Refusal::TooDeep);
        }
        Ok(())
    }

    // The levels of each entry, where all refer to earlier ones alone.
    fn find_levels(self, levels: &mut [u64]) -> Result<(), Refusal>
        requires { entries self.types.now ≤ length levels.old }
        ensures { (refusal_of result ≡ back_refusal self.entry.types.now self.entry.members.now) × IfOk result (λ u. Levelled self.entry.types.now self.entry.members.now levels.new (entries self.entry.types.now)) }
    {
        for e in 0..self.entries() {
            let Some(level) = self.level(self.form(e as u64), &levels[..e]) else {
                return Err(Refusal::BadType);
            };
            levels[e] = level;
        }
        Ok(())
    }

    // The levels of an entry's type, from those of the entries before it, if it refers to these alone.
    #[tactic(auto, unfolding(crate::specs::Entries::referred, crate::specs::Table::level_above))]
    fn level(self, form: Form, earlier: &[u64]) -> Option<u64>
        ensures { MatchOption result (0 ≡ level_of earlier.now (length earlier.now) (form_meaning self.entry.members.now form)) (λ l. (l ≡ level_of earlier.now (length earlier.now) (form_meaning self.entry.members.now form)) × (0 < l)) }
    {
        match form {
            Form::One(_) => Some(1),
            Form::Members { first, count, .. } => self.level_above(first, count, earlier),
            Form::Elements { element, .. } => Some(
                (*earlier.get(element as usize)?).saturating_add(1),
            ),
        }
    }

    // One level more than the deepest of some members. A member past the end of the list isn't earlier, so that the loop is never longer than the
    // list.
    fn level_above(self, first: u64, count: u64, earlier: &[u64]) -> Option<u64>
        ensures { MatchOption result (0 ≡ level_above earlier.now (length earlier.now) 0 (members_from self.entry.members.now first count)) (λ l. (l ≡ level_above earlier.now (length earlier.now) 0 (members_from self.entry.members.now first count)) × (0 < l)) }
    {
        let mut best: u64 = 0;
        for i in 0..count {
            best = best.max(*earlier.get(self.member(first, i) as usize)?);
        }
        Some(best.saturating_add(1))
    }

    // A row for each entry, up to the first that is refused: its refusal.
    fn fill(self, table: &mut [u64]) -> Result<(), Refusal>
        requires { length self.types.now ≤ length table.old }
        ensures { (refusal_of result ≡ filled_refusal self.entry.types.now self.entry.members.now table.old 0 (entries self.entry.types.now)) × (table.new ≡ filled self.entry.types.now self.entry.members.now table.old 0 (entries self.entry.types.now)) }
    {
        for e in 0..self.entries() {
            let form = self.form(e as u64);
            let row = self.row_of(form, table);
            check_form(form, row)?;
            put_row(table, e, row);
        }
        Ok(())
    }

    // An entry's row, from the rows of the entries that it refers to.
    #[tactic(auto, unfolding(crate::specs::Table::row_of))]
    fn row_of(self, form: Form, table: &[u64]) -> Row
        ensures { result ≡ row_of table.now (form_meaning self.entry.members.now form) }
    {
        match form {
            Form::One(s) => Row {
                takes: s.size,
                reach: s.size.max(1),
                align: s.align.max(1),
                leaves: 1,
            },
            Form::Members {
                overlaid,
                first,
                count,
            } => self.row_over(table, overlaid, first, count),
            Form::Elements { element, count } => row_times(row_at(table, element), count),
        }
    }

    // The row of so many members, overlaid or each behind the one before.
    fn row_over(self, table: &[u64], overlaid: bool, first: u64, count: u64) -> Row
        ensures { result ≡ members_row table.now overlaid 0 0 1 0 (members_from self.entry.members.now first count) }
    {
        let mut end: u64 = 0;
        let mut far: u64 = 0;
        let mut align: u64 = 1;
        let mut leaves: u64 = 0;
        for i in 0..count {
            let r = row_at(table, self.member(first, i));
            let offset = place(overlaid, end, r.align);
            end = offset.saturating_add(r.takes);
            far = far.max(offset.saturating_add(r.reach));
            align = align.max(r.align);
            leaves = counted(leaves.saturating_add(r.leaves));
        }
        let size = round_up(far, align);
        Row {
            takes: size,
            reach: size,
            align,
            leaves,
        }
    }

    // How many entries there are.
    pub fn entries(self) -> usize
        ensures { result ≡ entries self.entry.types.now }
    {
        self.types.len() / ENTRY
    }

    // What entry number `e` says: past the last a scalar of all zeros.
    #[tactic(auto, using(crate::proofs::Reading::record_form, crate::proofs::Reading::union_form, crate::proofs::Reading::array_form, crate::proofs::Reading::scalar_form))]
    pub fn form(self, e: u64) -> Form
        ensures { result ≡ form_of (entry_at self.entry.types.now e) }
    {
        let [kind, second, third, _] = four_at(self.types, e);
        match kind {
            RECORD => Form::Members {
                overlaid: false,
                first: second,
                count: third,
            },
            UNION => Form::Members {
                overlaid: true,
                first: second,
                count: third,
            },
            ARRAY => Form::Elements {
                element: second,
                count: third,
            },
            _ => Form::One(Scalar {
                kind,
                size: second,
                align: third,
            }),
        }
    }

    // The entry that member `i` from `first` on refers to. Past the end of the list it is the number of none.
    // kept: a number and no Option, since the test for an earlier entry refuses it with the later ones; with an Option each loop has a second way out.
    pub fn member(self, first: u64, i: u64) -> u64
        ensures { result ≡ get_or self.entry.members.now (first + i) nowhere }
    {
        *self
            .members
            .get(first.saturating_add(i) as usize)
            .unwrap_or(&MOST_WORD)
    }
}

// The row of so many elements with this row.
fn row_times(r: Row, count: u64) -> Row
    ensures { result ≡ elements_row r count }
{
    let size = count.saturating_mul(round_up(r.reach, r.align));
    Row {
        takes: size,
        reach: size,
        align: r.align,
        leaves: counted(count.saturating_mul(r.leaves)),
    }
}

// The refusal of an entry: a scalar's own, an array's count, the size of what isn't a scalar.
fn check_form(form: Form, r: Row) -> Result<(), Refusal>
    ensures { refusal_of result ≡ form_refusal form r }
{
    match form {
        Form::One(s) => checks::check_scalar(s),
        Form::Members { .. } => check_size(r.reach),
        Form::Elements { count, .. } => {
            if count > MOST_ELEMENTS {
                return Err(Refusal::BadSize);
            }
            check_size(r.reach)
        }
    }
}

fn check_size(size: u64) -> Result<(), Refusal>
    ensures { refusal_of result ≡ size_refusal size }
{
    if size > checks::MOST_OFFSET {
        return Err(Refusal::BadSize);
    }
    Ok(())
}

// Where a member stands, behind what ends there.
pub fn place(overlaid: bool, end: u64, align: u64) -> u64
    ensures { result ≡ place_from overlaid end align }
{
    if overlaid {
        return 0;
    }
    round_up(end, align)
}

// Leaves as a row has them.
fn counted(n: u64) -> u64
    ensures { result ≡ min n 1025 }
{
    n.min(checks::MOST_PIECES as u64 + 1)
}

// The row of entry number `e`: all zeros where there is none.
pub fn row_at(table: &[u64], e: u64) -> Row
    ensures { result ≡ row_at table.now e }
{
    let [takes, reach, align, leaves] = four_at(table, e);
    Row {
        takes,
        reach,
        align,
        leaves,
    }
}

fn put_row(table: &mut [u64], e: usize, r: Row)
    requires { 4 * e + 4 ≤ length table.old }
    ensures { table.new ≡ put_row table.old e r }
{
    let at = ENTRY * e;
    table[at..at + ENTRY].copy_from_slice(&[r.takes, r.reach, r.align, r.leaves]);
}

// Four words by their number: all zeros where there are none.
fn four_at(words: &[u64], e: u64) -> [u64; ENTRY]
    ensures { result ≡ piece_words (piece_at words.now (entry_size * e)) }
{
    match words.as_chunks::<ENTRY>().0.get(e as usize) {
        Some(four) => *four,
        None => [0; ENTRY],
    }
}
