// Which description a target and a convention follow (REFERENCE 6). Architectures, systems and conventions come as codes, which `codes` has; a
// code that isn't known answers none, also where the lookup would not read it. The crate attributes has the attributes' names.
#![tactic(auto)]

mod codes;
mod followed;

ghost use Rattle.std.specs.Prelude.{◌≡◌};
ghost use Rattle.targets.specs.Answers.{target_found, convention_found, pops_answer};
ghost use Rattle.targets.specs.Decoded.{optional};

pub use codes::{
    Architecture, Convention, FASTCALL, MS, NO_CALLEE_SAVED, NONE, PRESERVE_NONE, STDCALL, SYSV,
    System, TARGET, UnknownCode, architecture_of, convention_of, is_convention, is_elf, is_target,
    is_windows, system_of,
};
use followed::{convention_row, target_row};

// The description that a target follows.
pub fn for_target(architecture: u64, system: u64, msvc: bool) -> Option<u64>
    ensures { result ≡ optional (target_found architecture system msvc) }
{
    let architecture = Architecture::try_from(architecture).ok()?;
    let system = System::try_from(system).ok()?;
    target_row(architecture, system, msvc)
}

// The description that a function of a convention follows on a target.
pub fn for_convention(architecture: u64, system: u64, msvc: bool, convention: u64) -> Option<u64>
    ensures { result ≡ optional (convention_found architecture system msvc convention) }
{
    let architecture = Architecture::try_from(architecture).ok()?;
    let system = System::try_from(system).ok()?;
    let convention = Convention::try_from(convention).ok()?;
    convention_row(convention, architecture, system, msvc)
}

// Whether the callee of a convention takes its arguments off the stack.
#[tactic(auto, unfolding(crate::specs::Answers::pops_answer))]
pub fn callee_pops(convention: u64) -> bool
    ensures { result ≡ pops_answer convention }
{
    matches!(
        Convention::try_from(convention),
        Ok(Convention::Stdcall | Convention::Fastcall)
    )
}
