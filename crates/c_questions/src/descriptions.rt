// What a description says (REFERENCE 13.4).
ghost use Rattle.std.specs.Prelude.{◌≡◌, length};
ghost use Rattle.abis.specs.Answers.{is_by_reference_answer, returns_by_reference_answer, wide_returns_in_answer, name_answer, name_written};
ghost use Rattle.export_questions.specs.Answers.{yes_told, format_told, length_told};
ghost use Rattle.export_questions.specs.Descriptions.{description_answer, return_rule_answer, argument_rule_answer};

use export_numbers::Told;
use export_questions::{Description, RuleNumbers};

// The fields of a description.
#[unsafe(no_mangle)]
pub extern "C" fn barkpaddle_description(abi: u64) -> Description
    ensures { result ≡ description_answer abi }
{
    export_questions::barkpaddle_description(abi)
}

// Rule `index` of a description's list for returns.
#[unsafe(no_mangle)]
pub extern "C" fn barkpaddle_return_rule(abi: u64, index: u64) -> RuleNumbers
    ensures { result ≡ return_rule_answer abi index }
{
    export_questions::barkpaddle_return_rule(abi, index)
}

// Rule `index` of a description's list for arguments.
#[unsafe(no_mangle)]
pub extern "C" fn barkpaddle_argument_rule(abi: u64, index: u64) -> RuleNumbers
    ensures { result ≡ argument_rule_answer abi index }
{
    export_questions::barkpaddle_argument_rule(abi, index)
}

// A description's name, at the front of the buffer; how many bytes.
#[unsafe(no_mangle)]
pub extern "C" fn barkpaddle_name(abi: u64, name: &mut [u8]) -> Told
    ensures { (result ≡ length_told (name_answer abi (length name.old))) × (name.new ≡ name_written abi name.old) }
{
    export_questions::barkpaddle_name(abi, name)
}

// Whether a scalar of this size travels as the address of a copy.
#[unsafe(no_mangle)]
pub extern "C" fn barkpaddle_scalar_is_by_reference(abi: u64, size: u64) -> Told
    ensures { result ≡ yes_told (is_by_reference_answer abi size) }
{
    export_questions::barkpaddle_scalar_is_by_reference(abi, size)
}

// Whether a scalar of this size comes back through the address that the caller passes.
#[unsafe(no_mangle)]
pub extern "C" fn barkpaddle_scalar_returns_by_reference(abi: u64, size: u64) -> Told
    ensures { result ≡ yes_told (returns_by_reference_answer abi size) }
{
    export_questions::barkpaddle_scalar_returns_by_reference(abi, size)
}

// The format in which an integer of this size comes back where it is by reference otherwise, or 0 for none.
#[unsafe(no_mangle)]
pub extern "C" fn barkpaddle_wide_integer_returns_in(abi: u64, size: u64) -> Told
    ensures { result ≡ format_told (wide_returns_in_answer abi size) }
{
    export_questions::barkpaddle_wide_integer_returns_in(abi, size)
}
