// Which description a target and a convention follow, in numbers: the codes of REFERENCE 6, and `targets::NONE` for none.
ghost use Rattle.std.specs.Prelude.{◌≡◌, length};
ghost use Rattle.shape.specs.Numbers.{one_if};
ghost use Rattle.targets.specs.Answers.{target_answer, convention_answer, pops_answer};
ghost use Rattle.attributes.specs.Answers.{asked_answer, attribute_answer, attribute_written};
ghost use Rattle.export_numbers.specs.Numbers.{is_set};
ghost use Rattle.export_questions.specs.Answers.{length_told};

use export_numbers::Told;

// The description that a target follows, or none.
#[tactic(auto, unfolding(targets::specs::Answers::target_answer))]
pub fn barkpaddle_for_target(architecture: u64, system: u64, msvc: u64) -> u64
    ensures { result ≡ target_answer architecture system (is_set msvc) }
{
    targets::for_target(architecture, system, msvc != 0).unwrap_or(targets::NONE)
}

// The description that a function of a convention follows on a target, or none.
#[tactic(auto, unfolding(targets::specs::Answers::convention_answer))]
pub fn barkpaddle_for_convention(architecture: u64, system: u64, msvc: u64, convention: u64) -> u64
    ensures { result ≡ convention_answer architecture system (is_set msvc) convention }
{
    targets::for_convention(architecture, system, msvc != 0, convention).unwrap_or(targets::NONE)
}

// The convention that an attribute's name asks for on a target, or none.
#[tactic(auto, unfolding(attributes::specs::Answers::asked_answer))]
pub fn barkpaddle_asked(architecture: u64, system: u64, msvc: u64, name: &[u8]) -> u64
    ensures { result ≡ asked_answer architecture system (is_set msvc) name.now }
{
    attributes::asked(architecture, system, msvc != 0, name).unwrap_or(targets::NONE)
}

// The name of the attribute that asks for a convention, at the front of the buffer; how many bytes, or none.
pub fn barkpaddle_attribute(convention: u64, name: &mut [u8]) -> Told
    ensures { (result ≡ length_told (attribute_answer convention (length name.old))) × (name.new ≡ attribute_written convention name.old) }
{
    match attributes::attribute(convention, name) {
        Ok(Some(length)) => Told::from(Ok(length as u64)),
        Ok(None) => Told::from(Ok(targets::NONE)),
        Err(refusal) => Told::from(Err(refusal)),
    }
}

// Whether the callee of a convention takes its arguments off the stack.
pub fn barkpaddle_callee_pops(convention: u64) -> u64
    ensures { result ≡ one_if (pops_answer convention) }
{
    u64::from(targets::callee_pops(convention))
}
