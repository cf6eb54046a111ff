// Which description a target and a convention follow, by its number.
ghost use Rattle.std.specs.Prelude.{◌≡◌, cond, get_or};
ghost use Rattle.std.proofs.Math.Option.{none};
ghost use Rattle.targets.specs.Codes.{is_windows};
ghost use Rattle.targets.specs.Decoded.{optional};
ghost use Rattle.targets.specs.Followed.{for_target, for_convention, by_runtime, regparm_rows};

use crate::codes::{Architecture, Convention, System, is_windows};
use abis::numbers::*;

// regparm takes up to three registers; the descriptions of one to three stand behind I386_SYSV.
const MOST_REGISTERS: u64 = 3;

pub fn target_row(architecture: Architecture, system: System, msvc: bool) -> Option<u64>
    ensures { result ≡ optional (for_target architecture system msvc) }
{
    match architecture {
        Architecture::X86_64 => Some(if is_windows(system) {
            WIN64
        } else {
            SYSV_AMD64
        }),
        Architecture::X86 => Some(by_runtime(system, msvc, I386_SYSV, I386_MINGW, I386_MSVC)),
        Architecture::Aarch64 => Some(match system {
            System::MacOs | System::OtherDarwin => DARWIN_ARM64,
            System::Windows => WINDOWS_ARM64,
            System::Other => AAPCS64,
        }),
        Architecture::Riscv64 => Some(RISCV_LP64D),
        Architecture::Other => None,
    }
}

// Each convention but the target's own stands on one architecture alone.
pub fn convention_row(
    convention: Convention,
    architecture: Architecture,
    system: System,
    msvc: bool,
) -> Option<u64>
    ensures { result ≡ optional (for_convention convention architecture system msvc) }
{
    match (convention, architecture) {
        (Convention::Target, _) => target_row(architecture, system, msvc),
        (Convention::Ms, Architecture::X86_64) => Some(WIN64),
        (
            Convention::Sysv | Convention::NoCalleeSaved | Convention::PreserveNone,
            Architecture::X86_64,
        ) => Some(SYSV_AMD64),
        (Convention::Stdcall, Architecture::X86) => Some(by_runtime(
            system,
            msvc,
            I386_SYSV_STDCALL,
            I386_MINGW_STDCALL,
            I386_MSVC_STDCALL,
        )),
        (Convention::Fastcall, Architecture::X86) => Some(by_runtime(
            system,
            msvc,
            I386_SYSV_FASTCALL,
            I386_MINGW_FASTCALL,
            I386_MSVC_FASTCALL,
        )),
        (Convention::Regparm(n), Architecture::X86) => regparm(system, n),
        _ => None,
    }
}

// The row for the runtime of 32-bit x86: System V's, or on Windows mingw's or MSVC's.
fn by_runtime(system: System, msvc: bool, sysv: u64, mingw: u64, ms: u64) -> u64
    ensures { result ≡ by_runtime system msvc sysv mingw ms }
{
    match (is_windows(system), msvc) {
        (true, true) => ms,
        (true, false) => mingw,
        (false, _) => sysv,
    }
}

fn regparm(system: System, n: u64) -> Option<u64>
    ensures { result ≡ optional (cond (is_windows system) none (get_or regparm_rows n none)) }
{
    if is_windows(system) || n > MOST_REGISTERS {
        return None;
    }
    Some(I386_SYSV + n)
}
