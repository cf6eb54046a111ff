// Which convention an attribute's name asks for (REFERENCE 6.4).
ghost use Rattle.std.specs.Prelude.{◌≡◌};
ghost use Rattle.targets.specs.Decoded.{optional};
ghost use Rattle.attributes.specs.Attributes.{asked_on_x86, asked_on_x86_64, same_bytes, asked as asked_of};
ghost use Rattle.attributes.specs.Answers.{code_asked};

use targets::{
    Architecture, FASTCALL, MS, NO_CALLEE_SAVED, PRESERVE_NONE, STDCALL, SYSV, System, TARGET,
    is_elf, is_windows,
};

// The code of the convention that a name asks for.
// kept: a code and no Convention, since not every Convention has a code: regparm of a number up to 2^64 passes it.
pub fn by_name(architecture: Architecture, system: System, name: &[u8]) -> Option<u64>
    ensures { result ≡ optional (code_asked (asked_of architecture system name.now)) }
{
    match architecture {
        Architecture::X86_64 => asked_on_x86_64(system, name),
        Architecture::X86 => asked_on_x86(name),
        _ => None,
    }
}

// A convention that the target follows already is the target's own.
// kept: tests in order and no `match` on the bytes: the check asks for a proof at each byte of each name, and `asked_on_x86` didn't close.
#[tactic(auto, unfolding(crate::specs::Attributes::asked_on_x86_64, targets::specs::Codes::convention_code))]
fn asked_on_x86_64(system: System, name: &[u8]) -> Option<u64>
    ensures { result ≡ optional (code_asked (asked_on_x86_64 system name.now)) }
{
    if same(name, b"no_callee_saved_registers") && is_elf(system) {
        Some(NO_CALLEE_SAVED)
    } else if same(name, b"preserve_none") && is_elf(system) {
        Some(PRESERVE_NONE)
    } else if same(name, b"ms_abi") {
        Some(if is_windows(system) { TARGET } else { MS })
    } else if same(name, b"sysv_abi") {
        Some(if is_windows(system) { SYSV } else { TARGET })
    } else {
        None
    }
}

#[tactic(auto, unfolding(crate::specs::Attributes::asked_on_x86, targets::specs::Codes::convention_code))]
fn asked_on_x86(name: &[u8]) -> Option<u64>
    ensures { result ≡ optional (code_asked (asked_on_x86 name.now)) }
{
    if same(name, b"stdcall") {
        Some(STDCALL)
    } else if same(name, b"fastcall") {
        Some(FASTCALL)
    } else if same(name, b"cdecl") {
        Some(TARGET)
    } else {
        None
    }
}

#[tactic(auto, using(crate::proofs::NameLaws::same_heads))]
fn same(name: &[u8], text: &[u8]) -> bool
    ensures { result ≡ same_bytes name.now text.now }
{
    name == text
}
