// What a description says, in numbers: its fields and rules, its name, and the questions that its scalar rules answer.
ghost use Rattle.std.specs.Prelude.{◌≡◌, ◌≤◌, length};
ghost use Rattle.abis.specs.Abis.{described};
ghost use Rattle.abis.specs.Answers.{is_by_reference_answer, returns_by_reference_answer, wide_returns_in_answer, name_answer, name_written};
ghost use Rattle.export_questions.specs.Answers.{yes_told, format_told, length_told};
ghost use Rattle.export_questions.specs.Descriptions.{description_answer, return_rule_answer, argument_rule_answer, fields_of, rule_told, rule_numbers_at, rule_numbers};
ghost use Rattle.shape.specs.Numbers.{accepted};

use describe::{Others, Terms};
use export_numbers::Told;
use rows::WIDTH;

// A refusal, or the fields of a description: banks, scalar rules, and the fields beside them; a field that came later stands last.
#[repr(C)]
#[derive(Clone, Copy, Default)]
pub struct Description {
    pub refusal: u64,
    pub integer: u64,
    pub float: u64,
    pub shared: u64,
    pub integer_width: u64,
    pub float_width: u64,
    pub in_memory: u64,
    pub wide_integer_is_all_or_nothing: u64,
    pub wide_integer_starts_even: u64,
    pub wide_integer_drains: u64,
    pub wide_is_by_reference: u64,
    pub wide_integer_returns_in: u64,
    pub wide_integer_in_memory: u64,
    pub decimal_in_integers: u64,
    pub quad_returns_by_reference: u64,
    pub return_pointer: u64,
    pub variadic: u64,
    pub stack_args: u64,
    pub narrow: u64,
    pub bit_ints: u64,
    pub cleanup: u64,
    pub float_falls_to_integers: u64,
}

// A refusal, or a rule: its test, the test's number, the way of travel, and what happens when short. All zeros past the end of a list: no test
// has the number 0.
#[repr(C)]
#[derive(Clone, Copy, Default)]
pub struct RuleNumbers {
    pub refusal: u64,
    pub test: u64,
    pub number: u64,
    pub travel: u64,
    pub short: u64,
}

// The fields of a description.
#[tactic(auto, unfolding(crate::specs::Descriptions::description_answer))]
pub fn barkpaddle_description(abi: u64) -> Description
    ensures { result ≡ description_answer abi }
{
    if abi >= abis::DESCRIPTIONS {
        return Description {
            refusal: shape::BAD_ABI,
            ..Description::default()
        };
    }
    fields_of(abi)
}

// Rule `index` of a description's list for returns.
#[tactic(auto, using(crate::proofs::Described::return_rule_read))]
pub fn barkpaddle_return_rule(abi: u64, index: u64) -> RuleNumbers
    ensures { result ≡ return_rule_answer abi index }
{
    rule_of(abi, rows::RETURNS, index)
}

// Rule `index` of a description's list for arguments.
#[tactic(auto, using(crate::proofs::Described::argument_rule_read))]
pub fn barkpaddle_argument_rule(abi: u64, index: u64) -> RuleNumbers
    ensures { result ≡ argument_rule_answer abi index }
{
    rule_of(abi, rows::ARGUMENTS, index)
}

// A description's name, at the front of the buffer; how many bytes.
pub fn barkpaddle_name(abi: u64, name: &mut [u8]) -> Told
    ensures { (result ≡ length_told (name_answer abi (length name.old))) × (name.new ≡ name_written abi name.old) }
{
    Told::from(abis::name(abi, name).map(|length| length as u64))
}

// Whether a scalar of this size travels as the address of a copy.
pub fn barkpaddle_scalar_is_by_reference(abi: u64, size: u64) -> Told
    ensures { result ≡ yes_told (is_by_reference_answer abi size) }
{
    Told::from(abis::scalar_is_by_reference(abi, size).map(u64::from))
}

// Whether a scalar of this size comes back through the address that the caller passes.
pub fn barkpaddle_scalar_returns_by_reference(abi: u64, size: u64) -> Told
    ensures { result ≡ yes_told (returns_by_reference_answer abi size) }
{
    Told::from(abis::scalar_returns_by_reference(abi, size).map(u64::from))
}

// The format in which an integer of this size comes back where it is by reference otherwise, or 0 for none.
pub fn barkpaddle_wide_integer_returns_in(abi: u64, size: u64) -> Told
    ensures { result ≡ format_told (wide_returns_in_answer abi size) }
{
    Told::from(abis::wide_integer_returns_in(abi, size))
}

fn fields_of(abi: u64) -> Description
    ensures { result ≡ fields_of (described abi) }
{
    let Terms {
        banks,
        scalars,
        return_pointer,
        variadic,
        stack_args,
    } = abis::read(abi).terms;
    let Others {
        narrow,
        bit_ints,
        cleanup,
    } = rows::others_of(abis::row(abi));
    Description {
        refusal: shape::ACCEPTED,
        integer: banks.integer,
        float: banks.float,
        shared: u64::from(banks.shared),
        integer_width: banks.integer_width,
        float_width: banks.float_width,
        in_memory: scalars.in_memory,
        wide_integer_is_all_or_nothing: u64::from(scalars.wide_integer_is_all_or_nothing),
        wide_integer_starts_even: u64::from(scalars.wide_integer_starts_even),
        wide_integer_drains: u64::from(scalars.wide_integer_drains),
        wide_is_by_reference: u64::from(scalars.wide_is_by_reference),
        wide_integer_returns_in: scalars.wide_integer_returns_in,
        wide_integer_in_memory: u64::from(scalars.wide_integer_in_memory),
        decimal_in_integers: u64::from(scalars.decimal_in_integers),
        quad_returns_by_reference: u64::from(scalars.quad_returns_by_reference),
        return_pointer: rows::return_pointer_number(return_pointer),
        variadic: rows::variadic_number(variadic),
        stack_args: rows::stack_args_number(stack_args),
        narrow: rows::narrow_number(narrow),
        bit_ints: rows::bit_ints_number(bit_ints),
        cleanup: rows::cleanup_number(cleanup),
        float_falls_to_integers: u64::from(scalars.float_falls_to_integers),
    }
}

// Rule `index` of the list whose first byte stands at `first` of a description's row.
fn rule_of(abi: u64, first: usize, index: u64) -> RuleNumbers
    requires { first ≤ 20 }
    ensures { result ≡ rule_told abi first index }
{
    if abi >= abis::DESCRIPTIONS {
        return RuleNumbers {
            refusal: shape::BAD_ABI,
            ..RuleNumbers::default()
        };
    }
    rule_at(abis::row(abi), first, index)
}

#[tactic(auto, unfolding(crate::specs::Descriptions::rule_numbers_at))]
fn rule_at(row: [u8; WIDTH], first: usize, index: u64) -> RuleNumbers
    requires { first ≤ 20 }
    ensures { result ≡ rule_numbers_at row first index }
{
    if index >= rows::RULES {
        return RuleNumbers::default();
    }
    let at = first + 3 * (index as usize);
    rule_numbers(row[at], row[at + 1], row[at + 2])
}

// A rule from its three bytes: the way of travel and what happens when short share the third.
fn rule_numbers(test: u8, number: u8, way: u8) -> RuleNumbers
    ensures { result ≡ rule_numbers accepted test number way }
{
    RuleNumbers {
        refusal: shape::ACCEPTED,
        test: u64::from(test),
        number: u64::from(number),
        travel: u64::from(way % 8),
        short: u64::from(way / 8),
    }
}
