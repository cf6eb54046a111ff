// Which description a target and a convention follow (REFERENCE 13.5).
ghost use Rattle.std.specs.Prelude.{◌≡◌, length};
ghost use Rattle.shape.specs.Numbers.{one_if};
ghost use Rattle.targets.specs.Answers.{target_answer, convention_answer, pops_answer};
ghost use Rattle.attributes.specs.Answers.{asked_answer, attribute_answer, attribute_written};
ghost use Rattle.export_numbers.specs.Numbers.{is_set};
ghost use Rattle.export_questions.specs.Answers.{length_told};

use export_numbers::Told;

// The description that a target follows, or none.
#[unsafe(no_mangle)]
pub extern "C" fn barkpaddle_for_target(architecture: u64, system: u64, msvc: u64) -> u64
    ensures { result ≡ target_answer architecture system (is_set msvc) }
{
    export_questions::barkpaddle_for_target(architecture, system, msvc)
}

// The description that a function of a convention follows on a target, or none.
#[unsafe(no_mangle)]
pub extern "C" fn barkpaddle_for_convention(
    architecture: u64,
    system: u64,
    msvc: u64,
    convention: u64,
) -> u64
    ensures { result ≡ convention_answer architecture system (is_set msvc) convention }
{
    export_questions::barkpaddle_for_convention(architecture, system, msvc, convention)
}

// The convention that an attribute's name asks for on a target, or none.
#[unsafe(no_mangle)]
pub extern "C" fn barkpaddle_asked(architecture: u64, system: u64, msvc: u64, name: &[u8]) -> u64
    ensures { result ≡ asked_answer architecture system (is_set msvc) name.now }
{
    export_questions::barkpaddle_asked(architecture, system, msvc, name)
}

// The name of the attribute that asks for a convention, at the front of the buffer; how many bytes, or none.
#[unsafe(no_mangle)]
pub extern "C" fn barkpaddle_attribute(convention: u64, name: &mut [u8]) -> Told
    ensures { (result ≡ length_told (attribute_answer convention (length name.old))) × (name.new ≡ attribute_written convention name.old) }
{
    export_questions::barkpaddle_attribute(convention, name)
}

// Whether the callee of a convention takes its arguments off the stack.
#[unsafe(no_mangle)]
pub extern "C" fn barkpaddle_callee_pops(convention: u64) -> u64
    ensures { result ≡ one_if (pops_answer convention) }
{
    export_questions::barkpaddle_callee_pops(convention)
}
