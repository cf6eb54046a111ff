// What one value spends of the registers that a call has left, and how it travels: the types of a decision, what decisions are made of, and an
// aggregate that a rule matched. Passed over and given are counted here; the rules are those of docs/REFERENCE.md, 9.3. A scalar's rules, 9.2
// and 9.4, are in the crate spend_scalar, which makes its decisions with the functions here.
#![tactic(auto)]

ghost use Rattle.std.specs.Prelude.{◌≡◌, min};
ghost use Rattle.spend.specs.Ways.{way_number, way_from, with_mark, spends, plain, in_pieces, cut_slots, one_slot, left_after};
ghost use Rattle.spend.specs.Spending.{want_of, by_pointer, travel_of, by_reference, in_memory_and_spend, in_slots, when_short, as_far_as, split_of, integer_cost, float_cost, drain_of};

use describe::{Banks, ReturnPointer, Rule, Short, Travel};
use slots::Source;

// What a call has left: registers in each bank, and the mark. Where the mark isn't 0, floats go in integer registers alone. It is a word, so
// that whatever C hands in is a call.
#[repr(C)]
#[derive(Clone, Copy, PartialEq, Eq)]
pub struct Left {
    pub integer: u64,
    pub float: u64,
    pub integers_only: u64,
}

pub const NO_MARK: u64 = 0;

pub const MARK: u64 = 1;

impl Left {
    // The same registers, with the mark.
    pub fn with_mark(self) -> Left
        ensures { result ≡ with_mark self }
    {
        Left {
            integers_only: MARK,
            ..self
        }
    }

    // What a call has left after an operation: what was left before, less what is passed over and given.
    pub fn after(self, spent: Spent) -> Left
        ensures { result ≡ left_after self spent }
    {
        Left {
            integer: self
                .integer
                .saturating_sub(spent.integers_passed)
                .saturating_sub(spent.integers_given),
            float: self
                .float
                .saturating_sub(spent.floats_passed)
                .saturating_sub(spent.floats_given),
            ..self
        }
    }
}

// How a value travels.
#[derive(Clone, Copy, PartialEq, Eq)]
pub enum Way {
    Ignore,
    Direct,
    Pieces,
    Reference,
    Memory,
}

impl Way {
    // As answers in numbers have it (REFERENCE 9).
    pub fn number(self) -> u64
        ensures { result ≡ way_number self }
    {
        self as u64
    }
}

// The way that a number stands for.
impl From<u64> for Way {
    ghost from_gives = { λ number way. way ≡ way_from number };

    fn from(number: u64) -> Way {
        match number {
            0 => Way::Ignore,
            1 => Way::Direct,
            2 => Way::Pieces,
            3 => Way::Reference,
            _ => Way::Memory,
        }
    }
}

// The registers that one operation passes over and gives, in each bank.
#[repr(C)]
#[derive(Clone, Copy, PartialEq, Eq)]
pub struct Spent {
    pub integers_passed: u64,
    pub integers_given: u64,
    pub floats_passed: u64,
    pub floats_given: u64,
}

impl Spent {
    pub const NOTHING: Spent = Spent {
        integers_passed: 0,
        integers_given: 0,
        floats_passed: 0,
        floats_given: 0,
    };

    // So many registers of each bank, and none passed over.
    fn giving(integers: u64, floats: u64) -> Spent
        ensures { result ≡ spends 0 integers 0 floats }
    {
        Spent {
            integers_given: integers,
            floats_given: floats,
            ..Spent::NOTHING
        }
    }
}

// How a value travels, where its slots stand and how many they are, and what it spends.
#[derive(Clone, Copy)]
pub struct Decision {
    pub way: Way,
    pub source: Source,
    pub count: u64,
    pub spent: Spent,
}

impl Decision {
    // Without slots.
    pub fn plain(way: Way, spent: Spent) -> Decision
        ensures { result ≡ plain way spent }
    {
        Decision {
            way,
            source: Source::Empty,
            count: 0,
            spent,
        }
    }

    // In these slots.
    pub fn pieces(found: Wanted, spent: Spent) -> Decision
        ensures { result ≡ in_pieces found spent }
    {
        let source = found.source;
        Decision {
            way: Way::Pieces,
            source,
            count: found.count,
            spent,
        }
    }
}

// The slots that a rule travels in: how many, how many of them floats, and where they stand.
#[derive(Clone, Copy)]
pub struct Wanted {
    pub count: u64,
    pub floats: u64,
    pub source: Source,
}

impl Wanted {
    // A size cut into integers of a width.
    pub fn cut(size: u64, width: u64) -> Wanted
        ensures { result ≡ cut_slots size width }
    {
        Wanted {
            count: slots::parts(size, width),
            floats: 0,
            source: Source::Cut { size, width },
        }
    }

    // One slot at the start: its kind, its size, and 1 where it is a float.
    pub fn one(kind: u64, size: u64, floats: u64) -> Wanted
        ensures { result ≡ one_slot kind size floats }
    {
        Wanted {
            count: 1,
            floats,
            source: Source::One {
                kind,
                offset: 0,
                size,
            },
        }
    }
}

// An aggregate of this size under a rule whose test found these slots (REFERENCE 9.3); none where the rule ran short and the next one is tried.
#[tactic(auto, unfolding(crate::specs::Spending::travel_of))]
pub fn travel(
    banks: Banks,
    pointer: ReturnPointer,
    returning: bool,
    left: Left,
    rule: Rule,
    size: u64,
    found: Wanted,
) -> Option<Decision>
    ensures { result ≡ travel_of banks pointer returning left rule size found }
{
    let then = rule.then;
    let short = rule.short;
    let width = banks.integer_width;
    match then {
        Travel::Ignore => Some(Decision::plain(Way::Ignore, Spent::NOTHING)),
        Travel::AsFound => in_slots(banks.shared, returning, left, short, found),
        Travel::AsIntegers => in_slots(
            banks.shared,
            returning,
            left,
            short,
            Wanted::cut(size, width),
        ),
        Travel::AsOneInteger => in_slots(
            banks.shared,
            returning,
            left,
            short,
            Wanted::one(shape::INTEGER, size, 0),
        ),
        Travel::ByReference => Some(by_reference(pointer, returning, left.integer)),
        Travel::InMemory => Some(Decision::plain(Way::Memory, Spent::NOTHING)),
        Travel::InMemoryAndSpend => Some(in_memory_and_spend(
            returning,
            left.integer,
            registers(size, width),
        )),
    }
}

fn by_reference(pointer: ReturnPointer, returning: bool, left: u64) -> Decision
    ensures { result ≡ by_reference pointer returning left }
{
    if returning {
        return by_pointer(pointer, left);
    }
    by_address(left)
}

// What comes back through an address: it takes an argument register unless it has one of its own.
pub fn by_pointer(pointer: ReturnPointer, left: u64) -> Decision
    ensures { result ≡ by_pointer pointer left }
{
    match pointer {
        ReturnPointer::Dedicated => Decision::plain(Way::Reference, Spent::NOTHING),
        ReturnPointer::FirstArgument | ReturnPointer::FirstArgumentPopped => by_address(left),
    }
}

// Reference, and given takes 1 of the integer registers that are left.
pub fn by_address(left: u64) -> Decision
    ensures { result ≡ plain Way.Reference (spends 0 (min 1 left) 0 0) }
{
    let spent = Spent {
        integers_given: 1_u64.min(left),
        ..Spent::NOTHING
    };
    Decision::plain(Way::Reference, spent)
}

// In memory, and on an argument its words are counted against the registers, which carry nothing: they are passed over.
fn in_memory_and_spend(returning: bool, left: u64, want: u64) -> Decision
    ensures { result ≡ in_memory_and_spend returning left want }
{
    if returning {
        return Decision::plain(Way::Memory, Spent::NOTHING);
    }
    let spent = Spent {
        integers_passed: want.min(left),
        ..Spent::NOTHING
    };
    Decision::plain(Way::Memory, spent)
}

// Slots on a return spend nothing; on an argument they cost registers.
#[tactic(auto, unfolding(crate::specs::Spending::in_slots))]
fn in_slots(
    shared: bool,
    returning: bool,
    left: Left,
    short: Short,
    found: Wanted,
) -> Option<Decision>
    ensures { result ≡ in_slots shared returning left short found }
{
    if returning {
        return Some(Decision::pieces(found, Spent::NOTHING));
    }
    let integer = integer_cost(shared, found.count, found.floats);
    let float = float_cost(shared, found.floats);
    if (integer <= left.integer) & (float <= left.float) {
        return Some(Decision::pieces(found, Spent::giving(integer, float)));
    }
    when_short(short, left, found, integer, float)
}

// Slots that cost more than is left: what happens is the rule's.
#[tactic(auto, unfolding(crate::specs::Spending::when_short))]
fn when_short(short: Short, left: Left, found: Wanted, integer: u64, float: u64) -> Option<Decision>
    ensures { result ≡ when_short short left found integer float }
{
    match short {
        Short::Unchanged => Some(as_far_as(left, found, integer, float)),
        Short::Memory => Some(Decision::plain(Way::Memory, Spent::NOTHING)),
        Short::MemoryAndDrain => Some(Decision::plain(
            Way::Memory,
            Spent {
                integers_passed: drain(integer, left.integer),
                floats_passed: drain(float, left.float),
                ..Spent::NOTHING
            },
        )),
        Short::TryNextRule => None,
        Short::Split => Some(split(left, found, integer, float)),
    }
}

// Slots that are given the registers that are left, up to their cost.
fn as_far_as(left: Left, found: Wanted, integer: u64, float: u64) -> Decision
    ensures { result ≡ as_far_as left found integer float }
{
    let spent = Spent::giving(integer.min(left.integer), float.min(left.float));
    Decision::pieces(found, spent)
}

// Between the registers that are left and the stack; with no integer register left, there is nothing to split.
fn split(left: Left, found: Wanted, integer: u64, float: u64) -> Decision
    ensures { result ≡ split_of left found integer float }
{
    if left.integer > 0 {
        return as_far_as(left, found, integer, float);
    }
    Decision::plain(Way::Memory, Spent::NOTHING)
}

// Slots by bank: with shared banks every slot costs one of the integer bank.
fn integer_cost(shared: bool, count: u64, floats: u64) -> u64
    ensures { result ≡ integer_cost shared count floats }
{
    if shared {
        count
    } else {
        count.saturating_sub(floats)
    }
}

fn float_cost(shared: bool, floats: u64) -> u64
    ensures { result ≡ float_cost shared floats }
{
    if shared { 0 } else { floats }
}

// A bank that is short is passed over whole; the other is left as it is.
fn drain(cost: u64, left: u64) -> u64
    ensures { result ≡ drain_of cost left }
{
    if cost > left { left } else { 0 }
}

// Registers of a width that a size wants: rounded up, at least one.
#[tactic(auto, using(slots::proofs::Cut::length_cut), unfolding(crate::specs::Spending::want_of))]
pub fn registers(size: u64, width: u64) -> u64
    ensures { result ≡ want_of size width }
{
    slots::parts(size, width).max(1)
}
