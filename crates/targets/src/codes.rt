// The codes of architectures, systems and conventions, and what each stands for (REFERENCE 6.1).
ghost use Rattle.std.specs.Prelude.{◌≡◌};
ghost use Rattle.targets.specs.Codes.{is_target, is_convention, architecture_of, system_of, convention_of, is_windows, is_elf};
ghost use Rattle.targets.specs.Decoded.{architecture_coded, system_coded, convention_coded};

use std::error::Error;
use std::fmt;

// The number that leaves for C where there is nothing to answer: no description, no convention, no attribute (REFERENCE 1.5).
pub const NONE: u64 = 18446744073709551615;

#[derive(Clone, Copy, Debug, PartialEq, Eq)]
pub enum Architecture {
    X86,
    X86_64,
    Aarch64,
    Riscv64,
    Other,
}

#[derive(Clone, Copy, Debug, PartialEq, Eq)]
pub enum System {
    Windows,
    MacOs,
    OtherDarwin,
    Other,
}

#[derive(Clone, Copy, Debug, PartialEq, Eq)]
pub enum Convention {
    Target,
    Ms,
    Sysv,
    Stdcall,
    Fastcall,
    Regparm(u64),
    NoCalleeSaved,
    PreserveNone,
}

// A number that stands for no architecture, no system or no convention.
#[derive(Clone, Copy, Debug, PartialEq, Eq)]
pub struct UnknownCode(pub u64);

impl fmt::Display for UnknownCode {
    fn fmt<W: fmt::Write>(&self, f: &mut fmt::Formatter<W>) -> fmt::Result {
        write!(f, "nothing has the code {}", self.0)
    }
}

impl Error for UnknownCode {}

const X86: u64 = 0;

const X86_64: u64 = 1;

const AARCH64: u64 = 2;

const RISCV64: u64 = 3;

const OTHER_ARCHITECTURE: u64 = 4;

const WINDOWS: u64 = 0;

const MAC_OS: u64 = 1;

const OTHER_DARWIN: u64 = 2;

const OTHER_SYSTEM: u64 = 3;

pub const TARGET: u64 = 0;

pub const MS: u64 = 1;

pub const SYSV: u64 = 2;

pub const STDCALL: u64 = 3;

pub const FASTCALL: u64 = 4;

pub const NO_CALLEE_SAVED: u64 = 5;

pub const PRESERVE_NONE: u64 = 6;

// regparm(n) has the code REGPARM + n.
const REGPARM: u64 = 256;

const LAST_REGPARM: u64 = 511;

#[tactic(auto, unfolding(crate::specs::Codes::architecture_of))]
impl TryFrom<u64> for Architecture {
    type Error = UnknownCode;

    ghost try_from_gives = { λ code r. r ≡ architecture_coded code };

    fn try_from(code: u64) -> Result<Self, UnknownCode> {
        match code {
            X86 => Ok(Architecture::X86),
            X86_64 => Ok(Architecture::X86_64),
            AARCH64 => Ok(Architecture::Aarch64),
            RISCV64 => Ok(Architecture::Riscv64),
            OTHER_ARCHITECTURE => Ok(Architecture::Other),
            _ => Err(UnknownCode(code)),
        }
    }
}

#[tactic(auto, unfolding(crate::specs::Codes::system_of))]
impl TryFrom<u64> for System {
    type Error = UnknownCode;

    ghost try_from_gives = { λ code r. r ≡ system_coded code };

    fn try_from(code: u64) -> Result<Self, UnknownCode> {
        match code {
            WINDOWS => Ok(System::Windows),
            MAC_OS => Ok(System::MacOs),
            OTHER_DARWIN => Ok(System::OtherDarwin),
            OTHER_SYSTEM => Ok(System::Other),
            _ => Err(UnknownCode(code)),
        }
    }
}

#[tactic(auto, unfolding(crate::specs::Codes::convention_of))]
impl TryFrom<u64> for Convention {
    type Error = UnknownCode;

    ghost try_from_gives = { λ code r. r ≡ convention_coded code };

    fn try_from(code: u64) -> Result<Self, UnknownCode> {
        match code {
            TARGET => Ok(Convention::Target),
            MS => Ok(Convention::Ms),
            SYSV => Ok(Convention::Sysv),
            STDCALL => Ok(Convention::Stdcall),
            FASTCALL => Ok(Convention::Fastcall),
            NO_CALLEE_SAVED => Ok(Convention::NoCalleeSaved),
            PRESERVE_NONE => Ok(Convention::PreserveNone),
            REGPARM..=LAST_REGPARM => Ok(Convention::Regparm(code - REGPARM)),
            _ => Err(UnknownCode(code)),
        }
    }
}

pub fn is_target(architecture: u64, system: u64) -> bool
    ensures { result ≡ is_target architecture system }
{
    Architecture::try_from(architecture).is_ok() & System::try_from(system).is_ok()
}

pub fn is_convention(code: u64) -> bool
    ensures { result ≡ is_convention code }
{
    Convention::try_from(code).is_ok()
}

// An unknown code as what stands for every other.
#[tactic(auto, unfolding(crate::specs::Codes::architecture_of))]
pub fn architecture_of(code: u64) -> Architecture
    ensures { result ≡ architecture_of code }
{
    Architecture::try_from(code).unwrap_or(Architecture::Other)
}

// Likewise.
#[tactic(auto, unfolding(crate::specs::Codes::system_of))]
pub fn system_of(code: u64) -> System
    ensures { result ≡ system_of code }
{
    System::try_from(code).unwrap_or(System::Other)
}

// An unknown code as regparm of what it has above regparm's first.
#[tactic(auto, unfolding(crate::specs::Codes::convention_of))]
pub fn convention_of(code: u64) -> Convention
    ensures { result ≡ convention_of code }
{
    Convention::try_from(code).unwrap_or(Convention::Regparm(code.saturating_sub(REGPARM)))
}

pub fn is_windows(system: System) -> bool
    ensures { result ≡ is_windows system }
{
    matches!(system, System::Windows)
}

// Neither Windows nor macOS.
pub fn is_elf(system: System) -> bool
    ensures { result ≡ is_elf system }
{
    matches!(system, System::OtherDarwin | System::Other)
}
