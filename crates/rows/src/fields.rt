// What a row says beside its rules, read back.
ghost use Rattle.std.specs.Prelude.{◌≡◌};
ghost use Rattle.rows.specs.Row.{banks_from, scalars_from, terms_from, others_from};
ghost use Rattle.rows.specs.Codes.{return_pointer_code, variadic_code, stack_args_code, narrow_code, bit_ints_code, cleanup_code, return_pointer_from, variadic_from, stack_args_from, narrow_from, bit_ints_from, cleanup_from};

use crate::codes::*;
use describe::{
    Banks, BitInts, Cleanup, Narrow, Others, ReturnPointer, Scalars, StackArgs, Terms, Variadic,
};

// A row holds a description in WIDTH bytes: the four numbers of the banks, a bit for each flag of banks and scalar rules, the two
// formats with the last flag, the other fields in two bytes, then four rules for returns and four for arguments. A rule is three bytes: its test,
// the test's number, and the way of travel with what happens when short; three zeros stand where a list has ended. The module
// `codes` names the values.
// kept: a row of bytes, since what is read of a literal one is a constant, and an indexed one costs by its bytes (docs/DECISIONS.md, "The table").
pub const WIDTH: usize = 32;

const INTEGER: usize = 0;

const FLOAT: usize = 1;

const INTEGER_WIDTH: usize = 2;

const FLOAT_WIDTH: usize = 3;

const FLAGS: usize = 4;

const FORMATS: usize = 5;

const CALLS: usize = 6;

const STACK: usize = 7;

// Where the two lists of rules begin.
pub const RETURNS: usize = 8;

pub const ARGUMENTS: usize = 20;

// The rules that a row holds for each list, at most.
pub const RULES: u64 = 4;

// What classification reads.
#[tactic(auto, unfolding(crate::specs::Row::terms_from))]
pub fn terms_of(row: [u8; WIDTH]) -> Terms
    ensures { result ≡ terms_from row }
{
    let calls = row[CALLS];
    Terms {
        banks: banks_of(row),
        scalars: scalars_of(row),
        return_pointer: return_pointer_from(calls % 4),
        variadic: variadic_from(calls / 4),
        stack_args: stack_args_from(row[STACK] % 2),
    }
}

// What it doesn't.
#[tactic(auto, unfolding(crate::specs::Row::others_from))]
pub fn others_of(row: [u8; WIDTH]) -> Others
    ensures { result ≡ others_from row }
{
    let stack = row[STACK];
    Others {
        narrow: narrow_from(stack / 2 % 4),
        bit_ints: bit_ints_from(stack / 8 % 2),
        cleanup: cleanup_from(stack / 16),
    }
}

#[tactic(auto, unfolding(crate::specs::Row::banks_from))]
fn banks_of(row: [u8; WIDTH]) -> Banks
    ensures { result ≡ banks_from row }
{
    Banks {
        integer: u64::from(row[INTEGER]),
        float: u64::from(row[FLOAT]),
        shared: row[FLAGS] / SHARED % 2 == 1,
        integer_width: u64::from(row[INTEGER_WIDTH]),
        float_width: u64::from(row[FLOAT_WIDTH]),
    }
}

#[tactic(auto, unfolding(crate::specs::Row::scalars_from))]
fn scalars_of(row: [u8; WIDTH]) -> Scalars
    ensures { result ≡ scalars_from row }
{
    let flags = row[FLAGS];
    let formats = row[FORMATS];
    Scalars {
        in_memory: u64::from(formats % 8),
        wide_integer_is_all_or_nothing: flags / WIDE_INTEGER_IS_ALL_OR_NOTHING % 2 == 1,
        wide_integer_starts_even: flags / WIDE_INTEGER_STARTS_EVEN % 2 == 1,
        wide_integer_drains: flags / WIDE_INTEGER_DRAINS % 2 == 1,
        wide_is_by_reference: flags / WIDE_IS_BY_REFERENCE % 2 == 1,
        wide_integer_returns_in: u64::from(formats / 8 % 8),
        wide_integer_in_memory: flags / WIDE_INTEGER_IN_MEMORY % 2 == 1,
        decimal_in_integers: flags / DECIMAL_IN_INTEGERS % 2 == 1,
        quad_returns_by_reference: flags / QUAD_RETURNS_BY_REFERENCE % 2 == 1,
        float_falls_to_integers: formats / FLOAT_FALLS_TO_INTEGERS % 2 == 1,
    }
}

// kept: six functions for six enums, and no TryFrom: a number past the last case is the last case, so there is nothing to refuse.
#[tactic(auto, unfolding(crate::specs::Codes::return_pointer_from))]
fn return_pointer_from(code: u8) -> ReturnPointer
    ensures { result ≡ return_pointer_from code }
{
    match code {
        0 => ReturnPointer::FirstArgument,
        1 => ReturnPointer::FirstArgumentPopped,
        _ => ReturnPointer::Dedicated,
    }
}

#[tactic(auto, unfolding(crate::specs::Codes::variadic_from))]
fn variadic_from(code: u8) -> Variadic
    ensures { result ≡ variadic_from code }
{
    match code {
        0 => Variadic::SameAsFixed,
        1 => Variadic::AlwaysMemory,
        2 => Variadic::BothBanks,
        3 => Variadic::IntegersOnly,
        4 => Variadic::UnnamedIntegers,
        _ => Variadic::UnnamedIntegersEven,
    }
}

#[tactic(auto, unfolding(crate::specs::Codes::stack_args_from))]
fn stack_args_from(code: u8) -> StackArgs
    ensures { result ≡ stack_args_from code }
{
    match code {
        0 => StackArgs::RegisterSized,
        _ => StackArgs::Packed,
    }
}

#[tactic(auto, unfolding(crate::specs::Codes::narrow_from))]
fn narrow_from(code: u8) -> Narrow
    ensures { result ≡ narrow_from code }
{
    match code {
        0 => Narrow::Unspecified,
        1 => Narrow::ToInt,
        _ => Narrow::ArgsToInt,
    }
}

#[tactic(auto, unfolding(crate::specs::Codes::bit_ints_from))]
fn bit_ints_from(code: u8) -> BitInts
    ensures { result ≡ bit_ints_from code }
{
    match code {
        0 => BitInts::SpareBits,
        _ => BitInts::Untaught,
    }
}

#[tactic(auto, unfolding(crate::specs::Codes::cleanup_from))]
fn cleanup_from(code: u8) -> Cleanup
    ensures { result ≡ cleanup_from code }
{
    match code {
        0 => Cleanup::Caller,
        _ => Cleanup::Callee,
    }
}

// The numbers of these cases, as a row has them and as they leave; the functions above read them back.

pub fn return_pointer_number(pointer: ReturnPointer) -> u64
    ensures { result ≡ return_pointer_code pointer }
{
    pointer as u64
}

pub fn variadic_number(variadic: Variadic) -> u64
    ensures { result ≡ variadic_code variadic }
{
    variadic as u64
}

pub fn stack_args_number(stack: StackArgs) -> u64
    ensures { result ≡ stack_args_code stack }
{
    stack as u64
}

pub fn narrow_number(narrow: Narrow) -> u64
    ensures { result ≡ narrow_code narrow }
{
    narrow as u64
}

pub fn bit_ints_number(bits: BitInts) -> u64
    ensures { result ≡ bit_ints_code bits }
{
    bits as u64
}

pub fn cleanup_number(cleanup: Cleanup) -> u64
    ensures { result ≡ cleanup_code cleanup }
{
    cleanup as u64
}
