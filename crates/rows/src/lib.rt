// A description as a row of bytes, read back (REFERENCE 5): `fields` has what it says beside its rules. Its rules are read here (5.3), one by its
// place, or a whole list as two numbers, of which a walk takes one after another.
#![tactic(auto)]

pub mod codes;
mod fields;

ghost use Rattle.std.specs.Prelude.{◌≡◌, ◌+◌, ◌≤◌, ◌<◌, get_or};
ghost use Rattle.std.specs.Iterator.{item_count};
ghost use Rattle.rows.specs.Row.{return_rule, argument_rule, rule_of, list_of, first_rule, later_rules, listed, Turns};
ghost use Rattle.rows.specs.Codes.{test_from, size_from, travel_from, short_from};

use codes::*;
use describe::{Rule, Short, Test, Travel};
pub use fields::{
    ARGUMENTS, RETURNS, RULES, WIDTH, bit_ints_number, cleanup_number, narrow_number, others_of,
    return_pointer_number, stack_args_number, terms_of, variadic_number,
};

// A list of rules as two numbers, the first rule lowest: two bytes for each test and its number, a byte for each way of travel with what
// happens when short. A walk takes the first rule off until one decides; nothing is copied for it.
// kept: with rules in a slice or an array an aggregate costs 200 instructions more (docs/DECISIONS.md, "The table").
#[derive(Clone, Copy)]
pub struct Rules {
    pub tests: u64,
    pub ways: u64,
}

// Each item is the list from a rule on, of which a walk reads the first rule as far as it asks: the rest of a rule only where its test finds
// something.
#[tactic(auto, using(crate::proofs::Packed::listed_none, crate::proofs::Packed::listed_next))]
impl Iterator for Rules {
    type Item = Rules;

    ghost next_gives = { Turns };

    ghost remaining = { item_count listed };

    fn next(&mut self) -> Option<Rules> {
        if self.tests == 0 {
            return None;
        }
        let these = *self;
        *self = later_rules(these);
        Some(these)
    }
}

// Rule `i` for returns. A walk begins at 0 and goes on from one rule to the next; past the end stands a rule that ignores anything.
pub fn return_rule(row: [u8; WIDTH], i: u64) -> Rule
    ensures { result ≡ return_rule row i }
{
    rule_of(row, RETURNS, i)
}

// Rule `i` for arguments, likewise.
pub fn argument_rule(row: [u8; WIDTH], i: u64) -> Rule
    ensures { result ≡ argument_rule row i }
{
    rule_of(row, ARGUMENTS, i)
}

// The list of rules for returns, for a walk.
pub fn return_rules(row: [u8; WIDTH]) -> Rules
    ensures { result ≡ list_of row 8 }
{
    list_of(row, RETURNS)
}

// The list of rules for arguments, likewise.
pub fn argument_rules(row: [u8; WIDTH]) -> Rules
    ensures { result ≡ list_of row 20 }
{
    list_of(row, ARGUMENTS)
}

// The first rule of a list. Where none is left stands a rule that ignores anything.
#[tactic(auto, unfolding(crate::specs::Row::first_rule, crate::specs::Row::rule_from))]
pub fn first_rule(rules: Rules) -> Rule
    ensures { result ≡ first_rule rules }
{
    let way = (rules.ways % 256) as u8;
    Rule {
        when: first_test(rules),
        then: travel_from(way % 8),
        short: short_from(way / 8),
    }
}

// Its test alone: a walk needs the rest of a rule only where the test finds something.
#[tactic(auto, unfolding(crate::specs::Row::first_rule, crate::specs::Row::rule_from))]
pub fn first_test(rules: Rules) -> Test
    ensures { result ≡ (first_rule rules).when }
{
    test_from((rules.tests % 256) as u8, (rules.tests / 256 % 256) as u8)
}

// The rules behind the first.
#[tactic(auto, unfolding(crate::specs::Row::later_rules))]
pub fn later_rules(rules: Rules) -> Rules
    ensures { result ≡ later_rules rules }
{
    Rules {
        tests: rules.tests / 65536,
        ways: rules.ways / 256,
    }
}

#[tactic(auto, unfolding(crate::specs::Row::list_of))]
fn list_of(row: [u8; WIDTH], first: usize) -> Rules
    requires { first ≤ 20 }
    ensures { result ≡ list_of row first }
{
    Rules {
        tests: u64::from_le_bytes([
            row[first],
            row[first + 1],
            row[first + 3],
            row[first + 4],
            row[first + 6],
            row[first + 7],
            row[first + 9],
            row[first + 10],
        ]),
        ways: u64::from(u32::from_le_bytes([
            row[first + 2],
            row[first + 5],
            row[first + 8],
            row[first + 11],
        ])),
    }
}

// The rule at place `i` of the list whose first byte stands at `first`.
#[tactic(auto, unfolding(crate::specs::Row::rule_of, crate::specs::Row::rule_from))]
fn rule_of(row: [u8; WIDTH], first: usize, i: u64) -> Rule
    requires { first ≤ 20 }
    ensures { result ≡ rule_of row first i }
{
    if i < RULES {
        let at = first + 3 * (i as usize);
        let way = row[at + 2];
        Rule {
            when: test_from(row[at], row[at + 1]),
            then: travel_from(way % 8),
            short: short_from(way / 8),
        }
    } else {
        Rule {
            when: Test::Anything,
            then: Travel::Ignore,
            short: Short::Unchanged,
        }
    }
}

#[tactic(auto, unfolding(crate::specs::Codes::test_from))]
fn test_from(code: u8, number: u8) -> Test
    ensures { result ≡ test_from code number }
{
    match code {
        NO_RULE => Test::Anything,
        ANYTHING => Test::Anything,
        EMPTY => Test::Empty,
        SIZE_ONE_OF => Test::SizeOneOf(
            4,
            size_from(number % 4),
            size_from(number / 4 % 4),
            size_from(number / 16 % 4),
            size_from(number / 64),
        ),
        SIZE_AT_MOST => Test::SizeAtMost(u64::from(number)),
        HOMOGENEOUS => Test::Homogeneous(u64::from(number)),
        FLOAT_PAIR => Test::FloatPair,
        X87_STACK => Test::X87Stack,
        LONE_FLOAT => Test::LoneFloat,
        FLOATING_MODE => Test::FloatingMode,
        COMPLEX_FLOAT => Test::ComplexFloat,
        _ => Test::Eightbytes(u64::from(number)),
    }
}

// One of the four sizes that a register may hold, by two bits.
#[tactic(auto, unfolding(crate::specs::Codes::size_from))]
fn size_from(code: u8) -> u64
    ensures { result ≡ size_from code }
{
    match code {
        0 => 1,
        1 => 2,
        2 => 4,
        _ => 8,
    }
}

#[tactic(auto, unfolding(crate::specs::Codes::travel_from))]
fn travel_from(code: u8) -> Travel
    ensures { result ≡ travel_from code }
{
    match code {
        0 => Travel::Ignore,
        1 => Travel::AsFound,
        2 => Travel::AsIntegers,
        3 => Travel::AsOneInteger,
        4 => Travel::ByReference,
        5 => Travel::InMemory,
        _ => Travel::InMemoryAndSpend,
    }
}

#[tactic(auto, unfolding(crate::specs::Codes::short_from))]
fn short_from(code: u8) -> Short
    ensures { result ≡ short_from code }
{
    match code {
        0 => Short::Unchanged,
        1 => Short::Memory,
        2 => Short::MemoryAndDrain,
        3 => Short::TryNextRule,
        _ => Short::Split,
    }
}
