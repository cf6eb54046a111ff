// The numbers of the descriptions that a target or a convention follows (REFERENCE 5.5).
pub const SYSV_AMD64: u64 = 0;

pub const AAPCS64: u64 = 1;

pub const DARWIN_ARM64: u64 = 2;

pub const WINDOWS_ARM64: u64 = 3;

pub const WIN64: u64 = 4;

pub const RISCV_LP64D: u64 = 5;

pub const I386_SYSV: u64 = 6;

pub const I386_SYSV_STDCALL: u64 = 14;

pub const I386_SYSV_FASTCALL: u64 = 22;

pub const I386_MINGW: u64 = 24;

pub const I386_MSVC: u64 = 25;

pub const I386_MINGW_STDCALL: u64 = 26;

pub const I386_MINGW_FASTCALL: u64 = 27;

pub const I386_MSVC_STDCALL: u64 = 28;

pub const I386_MSVC_FASTCALL: u64 = 29;
