// The descriptions, a row each, in the order of their numbers. A row's lines: integer and float registers, integer and float
// width; flags; formats, with the last flag; return pointer and variadic; stack arguments, narrow and bit-precise integers, cleanup; then four rules
// for returns and four for arguments, each its test, the test's number, and the way of travel with what happens when short.
// Above a row stands what sets it apart from the others; specs/Abis.antt says why each field and list is as it is.
ghost use Rattle.std.specs.Prelude.{◌≡◌, option_copied};
ghost use Rattle.abis.specs.Answers.{name_found};

use crate::DESCRIPTIONS;
use rows::WIDTH;
use rows::codes::*;

#[rattlefmt::skip]
pub const TABLE: [[u8; WIDTH]; DESCRIPTIONS as usize] = [
    SYSV_AMD64,
    AAPCS64, DARWIN_ARM64, WINDOWS_ARM64,
    WIN64,
    RISCV_LP64D,
    I386_SYSV,
    I386_SYSV_REGPARM_1, I386_SYSV_REGPARM_2, I386_SYSV_REGPARM_3,
    I386_SYSV_REG_STRUCT,
    I386_SYSV_REGPARM_1_REG_STRUCT, I386_SYSV_REGPARM_2_REG_STRUCT, I386_SYSV_REGPARM_3_REG_STRUCT,
    I386_SYSV_STDCALL,
    I386_SYSV_REGPARM_1_STDCALL, I386_SYSV_REGPARM_2_STDCALL, I386_SYSV_REGPARM_3_STDCALL,
    I386_SYSV_REG_STRUCT_STDCALL,
    I386_SYSV_REGPARM_1_REG_STRUCT_STDCALL, I386_SYSV_REGPARM_2_REG_STRUCT_STDCALL, I386_SYSV_REGPARM_3_REG_STRUCT_STDCALL,
    I386_SYSV_FASTCALL, I386_SYSV_REG_STRUCT_FASTCALL,
    I386_MINGW, I386_MSVC,
    I386_MINGW_STDCALL, I386_MINGW_FASTCALL,
    I386_MSVC_STDCALL, I386_MSVC_FASTCALL,
    RISCV_PSABI_LP64, RISCV_PSABI_LP64F, RISCV_PSABI_LP64D,
];

// x87 values have no argument register, and come back on the x87's stack. An aggregate that falls short leaves its registers to later
// arguments (MEMORY), where AAPCS64's takes the rest of the bank along.
#[rattlefmt::skip]
pub const SYSV_AMD64: [u8; WIDTH] = [
    6, 8, 8, 16,
    WIDE_INTEGER_IS_ALL_OR_NOTHING,
    X87_IN_MEMORY,
    FIRST_ARGUMENT + SAME_AS_FIXED,
    REGISTER_SIZED + ARGS_TO_INT + SPARE_BITS + CALLER,
    EMPTY, 0, IGNORE + UNCHANGED,
    X87_STACK, 0, AS_FOUND + UNCHANGED,
    EIGHTBYTES, 16, AS_FOUND + UNCHANGED,
    ANYTHING, 0, BY_REFERENCE + UNCHANGED,
    EMPTY, 0, IGNORE + UNCHANGED,
    EIGHTBYTES, 16, AS_FOUND + MEMORY,
    ANYTHING, 0, IN_MEMORY + UNCHANGED,
    NO_RULE, 0, 0,
];

// Draining leaves no hole in a bank for later arguments to fill. The address of a result has x8, which is no argument register.
#[rattlefmt::skip]
pub const AAPCS64: [u8; WIDTH] = [
    8, 8, 8, 16,
    WIDE_INTEGER_STARTS_EVEN + WIDE_INTEGER_DRAINS,
    NO_FORMAT,
    DEDICATED + SAME_AS_FIXED,
    REGISTER_SIZED + UNSPECIFIED + UNTAUGHT + CALLER,
    EMPTY, 0, IGNORE + UNCHANGED,
    HOMOGENEOUS, 4, AS_FOUND + UNCHANGED,
    SIZE_AT_MOST, 16, AS_INTEGERS + UNCHANGED,
    ANYTHING, 0, BY_REFERENCE + UNCHANGED,
    EMPTY, 0, IGNORE + UNCHANGED,
    HOMOGENEOUS, 4, AS_FOUND + MEMORY_AND_DRAIN,
    SIZE_AT_MOST, 16, AS_INTEGERS + MEMORY_AND_DRAIN,
    ANYTHING, 0, BY_REFERENCE + UNCHANGED,
];

// Apple's: no even start; arguments after the dots in memory, so that a prototype is needed; a packed argument area; narrow integers
// extended, since the other side relies on it.
#[rattlefmt::skip]
pub const DARWIN_ARM64: [u8; WIDTH] = [
    8, 8, 8, 16,
    WIDE_INTEGER_DRAINS,
    NO_FORMAT,
    DEDICATED + ALWAYS_MEMORY,
    PACKED + TO_INT + UNTAUGHT + CALLER,
    EMPTY, 0, IGNORE + UNCHANGED,
    HOMOGENEOUS, 4, AS_FOUND + UNCHANGED,
    SIZE_AT_MOST, 16, AS_INTEGERS + UNCHANGED,
    ANYTHING, 0, BY_REFERENCE + UNCHANGED,
    EMPTY, 0, IGNORE + UNCHANGED,
    HOMOGENEOUS, 4, AS_FOUND + MEMORY_AND_DRAIN,
    SIZE_AT_MOST, 16, AS_INTEGERS + MEMORY_AND_DRAIN,
    ANYTHING, 0, BY_REFERENCE + UNCHANGED,
];

// AAPCS64 but for the dots: the callee walks x0 to x7 and the arguments in memory with one pointer, so that floats go by integers.
#[rattlefmt::skip]
pub const WINDOWS_ARM64: [u8; WIDTH] = [
    8, 8, 8, 16,
    WIDE_INTEGER_STARTS_EVEN + WIDE_INTEGER_DRAINS,
    NO_FORMAT,
    DEDICATED + INTEGERS_ONLY,
    REGISTER_SIZED + UNSPECIFIED + UNTAUGHT + CALLER,
    EMPTY, 0, IGNORE + UNCHANGED,
    HOMOGENEOUS, 4, AS_FOUND + UNCHANGED,
    SIZE_AT_MOST, 16, AS_INTEGERS + UNCHANGED,
    ANYTHING, 0, BY_REFERENCE + UNCHANGED,
    EMPTY, 0, IGNORE + UNCHANGED,
    HOMOGENEOUS, 4, AS_FOUND + MEMORY_AND_DRAIN,
    SIZE_AT_MOST, 16, AS_INTEGERS + MEMORY_AND_DRAIN,
    ANYTHING, 0, BY_REFERENCE + UNCHANGED,
];

// One rule, by size, which reaches scalars. Arguments have no rule for an empty aggregate: gcc passes its address, which takes one of the
// four positions that both banks share.
#[rattlefmt::skip]
pub const WIN64: [u8; WIDTH] = [
    4, 0, 8, 16,
    SHARED + WIDE_IS_BY_REFERENCE + DECIMAL_IN_INTEGERS,
    RETURNS_IN_QUAD,
    FIRST_ARGUMENT + BOTH_BANKS,
    REGISTER_SIZED + UNSPECIFIED + UNTAUGHT + CALLER,
    EMPTY, 0, IGNORE + UNCHANGED,
    SIZE_ONE_OF, ONE_TWO_FOUR_EIGHT, AS_ONE_INTEGER + UNCHANGED,
    ANYTHING, 0, BY_REFERENCE + UNCHANGED,
    NO_RULE, 0, 0,
    SIZE_ONE_OF, ONE_TWO_FOUR_EIGHT, AS_ONE_INTEGER + UNCHANGED,
    ANYTHING, 0, BY_REFERENCE + UNCHANGED,
    NO_RULE, 0, 0,
    NO_RULE, 0, 0,
];

// A float register has 8 bytes. FLOAT_PAIR is a bonus: where its registers aren't left, the rule of the size is tried. After the dots one
// pointer walks a0 to a7.
#[rattlefmt::skip]
pub const RISCV_LP64D: [u8; WIDTH] = [
    8, 8, 8, 8,
    NO_FLAG,
    NO_FORMAT,
    FIRST_ARGUMENT + UNNAMED_INTEGERS,
    REGISTER_SIZED + TO_INT + UNTAUGHT + CALLER,
    EMPTY, 0, IGNORE + UNCHANGED,
    FLOAT_PAIR, 0, AS_FOUND + UNCHANGED,
    SIZE_AT_MOST, 16, AS_INTEGERS + UNCHANGED,
    ANYTHING, 0, BY_REFERENCE + UNCHANGED,
    EMPTY, 0, IGNORE + UNCHANGED,
    FLOAT_PAIR, 0, AS_FOUND + TRY_NEXT_RULE,
    SIZE_AT_MOST, 16, AS_INTEGERS + MEMORY_AND_DRAIN,
    ANYTHING, 0, BY_REFERENCE + UNCHANGED,
];

// Everything in memory, and the callee pops the address of a result. A complex float is no structure, so it comes back in edx:eax.
#[rattlefmt::skip]
pub const I386_SYSV: [u8; WIDTH] = [
    0, 0, 4, 8,
    QUAD_RETURNS_BY_REFERENCE,
    NO_FORMAT,
    FIRST_ARGUMENT_POPPED + SAME_AS_FIXED,
    REGISTER_SIZED + UNSPECIFIED + UNTAUGHT + CALLER,
    EMPTY, 0, IGNORE + UNCHANGED,
    COMPLEX_FLOAT, 0, AS_INTEGERS + UNCHANGED,
    ANYTHING, 0, BY_REFERENCE + UNCHANGED,
    NO_RULE, 0, 0,
    EMPTY, 0, IGNORE + UNCHANGED,
    ANYTHING, 0, IN_MEMORY + UNCHANGED,
    NO_RULE, 0, 0,
    NO_RULE, 0, 0,
];

// gcc's regparm(1) to regparm(3), in words. The address of a result is in eax, so there is nothing to pop. A record of one float is on the
// stack, as that float is.
#[rattlefmt::skip]
pub const I386_SYSV_REGPARM_1: [u8; WIDTH] = [
    1, 0, 4, 8,
    WIDE_INTEGER_IS_ALL_OR_NOTHING + WIDE_INTEGER_DRAINS + QUAD_RETURNS_BY_REFERENCE,
    NO_FORMAT,
    FIRST_ARGUMENT + SAME_AS_FIXED,
    REGISTER_SIZED + UNSPECIFIED + UNTAUGHT + CALLER,
    EMPTY, 0, IGNORE + UNCHANGED,
    COMPLEX_FLOAT, 0, AS_INTEGERS + UNCHANGED,
    ANYTHING, 0, BY_REFERENCE + UNCHANGED,
    NO_RULE, 0, 0,
    EMPTY, 0, IGNORE + UNCHANGED,
    LONE_FLOAT, 0, IN_MEMORY + UNCHANGED,
    ANYTHING, 0, AS_INTEGERS + MEMORY_AND_DRAIN,
    NO_RULE, 0, 0,
];

#[rattlefmt::skip]
pub const I386_SYSV_REGPARM_2: [u8; WIDTH] = [
    2, 0, 4, 8,
    WIDE_INTEGER_IS_ALL_OR_NOTHING + WIDE_INTEGER_DRAINS + QUAD_RETURNS_BY_REFERENCE,
    NO_FORMAT,
    FIRST_ARGUMENT + SAME_AS_FIXED,
    REGISTER_SIZED + UNSPECIFIED + UNTAUGHT + CALLER,
    EMPTY, 0, IGNORE + UNCHANGED,
    COMPLEX_FLOAT, 0, AS_INTEGERS + UNCHANGED,
    ANYTHING, 0, BY_REFERENCE + UNCHANGED,
    NO_RULE, 0, 0,
    EMPTY, 0, IGNORE + UNCHANGED,
    LONE_FLOAT, 0, IN_MEMORY + UNCHANGED,
    ANYTHING, 0, AS_INTEGERS + MEMORY_AND_DRAIN,
    NO_RULE, 0, 0,
];

#[rattlefmt::skip]
pub const I386_SYSV_REGPARM_3: [u8; WIDTH] = [
    3, 0, 4, 8,
    WIDE_INTEGER_IS_ALL_OR_NOTHING + WIDE_INTEGER_DRAINS + QUAD_RETURNS_BY_REFERENCE,
    NO_FORMAT,
    FIRST_ARGUMENT + SAME_AS_FIXED,
    REGISTER_SIZED + UNSPECIFIED + UNTAUGHT + CALLER,
    EMPTY, 0, IGNORE + UNCHANGED,
    COMPLEX_FLOAT, 0, AS_INTEGERS + UNCHANGED,
    ANYTHING, 0, BY_REFERENCE + UNCHANGED,
    NO_RULE, 0, 0,
    EMPTY, 0, IGNORE + UNCHANGED,
    LONE_FLOAT, 0, IN_MEMORY + UNCHANGED,
    ANYTHING, 0, AS_INTEGERS + MEMORY_AND_DRAIN,
    NO_RULE, 0, 0,
];

// -freg-struct-return: what gcc gives a machine mode comes back in registers, a record of one float in st0.
#[rattlefmt::skip]
pub const I386_SYSV_REG_STRUCT: [u8; WIDTH] = [
    0, 0, 4, 8,
    QUAD_RETURNS_BY_REFERENCE,
    NO_FORMAT,
    FIRST_ARGUMENT_POPPED + SAME_AS_FIXED,
    REGISTER_SIZED + UNSPECIFIED + UNTAUGHT + CALLER,
    EMPTY, 0, IGNORE + UNCHANGED,
    LONE_FLOAT, 0, AS_FOUND + UNCHANGED,
    SIZE_ONE_OF, ONE_TWO_FOUR_EIGHT, AS_INTEGERS + UNCHANGED,
    ANYTHING, 0, BY_REFERENCE + UNCHANGED,
    EMPTY, 0, IGNORE + UNCHANGED,
    ANYTHING, 0, IN_MEMORY + UNCHANGED,
    NO_RULE, 0, 0,
    NO_RULE, 0, 0,
];

#[rattlefmt::skip]
pub const I386_SYSV_REGPARM_1_REG_STRUCT: [u8; WIDTH] = [
    1, 0, 4, 8,
    WIDE_INTEGER_IS_ALL_OR_NOTHING + WIDE_INTEGER_DRAINS + QUAD_RETURNS_BY_REFERENCE,
    NO_FORMAT,
    FIRST_ARGUMENT + SAME_AS_FIXED,
    REGISTER_SIZED + UNSPECIFIED + UNTAUGHT + CALLER,
    EMPTY, 0, IGNORE + UNCHANGED,
    LONE_FLOAT, 0, AS_FOUND + UNCHANGED,
    SIZE_ONE_OF, ONE_TWO_FOUR_EIGHT, AS_INTEGERS + UNCHANGED,
    ANYTHING, 0, BY_REFERENCE + UNCHANGED,
    EMPTY, 0, IGNORE + UNCHANGED,
    LONE_FLOAT, 0, IN_MEMORY + UNCHANGED,
    ANYTHING, 0, AS_INTEGERS + MEMORY_AND_DRAIN,
    NO_RULE, 0, 0,
];

#[rattlefmt::skip]
pub const I386_SYSV_REGPARM_2_REG_STRUCT: [u8; WIDTH] = [
    2, 0, 4, 8,
    WIDE_INTEGER_IS_ALL_OR_NOTHING + WIDE_INTEGER_DRAINS + QUAD_RETURNS_BY_REFERENCE,
    NO_FORMAT,
    FIRST_ARGUMENT + SAME_AS_FIXED,
    REGISTER_SIZED + UNSPECIFIED + UNTAUGHT + CALLER,
    EMPTY, 0, IGNORE + UNCHANGED,
    LONE_FLOAT, 0, AS_FOUND + UNCHANGED,
    SIZE_ONE_OF, ONE_TWO_FOUR_EIGHT, AS_INTEGERS + UNCHANGED,
    ANYTHING, 0, BY_REFERENCE + UNCHANGED,
    EMPTY, 0, IGNORE + UNCHANGED,
    LONE_FLOAT, 0, IN_MEMORY + UNCHANGED,
    ANYTHING, 0, AS_INTEGERS + MEMORY_AND_DRAIN,
    NO_RULE, 0, 0,
];

#[rattlefmt::skip]
pub const I386_SYSV_REGPARM_3_REG_STRUCT: [u8; WIDTH] = [
    3, 0, 4, 8,
    WIDE_INTEGER_IS_ALL_OR_NOTHING + WIDE_INTEGER_DRAINS + QUAD_RETURNS_BY_REFERENCE,
    NO_FORMAT,
    FIRST_ARGUMENT + SAME_AS_FIXED,
    REGISTER_SIZED + UNSPECIFIED + UNTAUGHT + CALLER,
    EMPTY, 0, IGNORE + UNCHANGED,
    LONE_FLOAT, 0, AS_FOUND + UNCHANGED,
    SIZE_ONE_OF, ONE_TWO_FOUR_EIGHT, AS_INTEGERS + UNCHANGED,
    ANYTHING, 0, BY_REFERENCE + UNCHANGED,
    EMPTY, 0, IGNORE + UNCHANGED,
    LONE_FLOAT, 0, IN_MEMORY + UNCHANGED,
    ANYTHING, 0, AS_INTEGERS + MEMORY_AND_DRAIN,
    NO_RULE, 0, 0,
];

// stdcall: the callee takes the whole argument area off, the address of a result with it, so that this isn't popped apart.
#[rattlefmt::skip]
pub const I386_SYSV_STDCALL: [u8; WIDTH] = [
    0, 0, 4, 8,
    QUAD_RETURNS_BY_REFERENCE,
    NO_FORMAT,
    FIRST_ARGUMENT + SAME_AS_FIXED,
    REGISTER_SIZED + UNSPECIFIED + UNTAUGHT + CALLEE,
    EMPTY, 0, IGNORE + UNCHANGED,
    COMPLEX_FLOAT, 0, AS_INTEGERS + UNCHANGED,
    ANYTHING, 0, BY_REFERENCE + UNCHANGED,
    NO_RULE, 0, 0,
    EMPTY, 0, IGNORE + UNCHANGED,
    ANYTHING, 0, IN_MEMORY + UNCHANGED,
    NO_RULE, 0, 0,
    NO_RULE, 0, 0,
];

#[rattlefmt::skip]
pub const I386_SYSV_REGPARM_1_STDCALL: [u8; WIDTH] = [
    1, 0, 4, 8,
    WIDE_INTEGER_IS_ALL_OR_NOTHING + WIDE_INTEGER_DRAINS + QUAD_RETURNS_BY_REFERENCE,
    NO_FORMAT,
    FIRST_ARGUMENT + SAME_AS_FIXED,
    REGISTER_SIZED + UNSPECIFIED + UNTAUGHT + CALLEE,
    EMPTY, 0, IGNORE + UNCHANGED,
    COMPLEX_FLOAT, 0, AS_INTEGERS + UNCHANGED,
    ANYTHING, 0, BY_REFERENCE + UNCHANGED,
    NO_RULE, 0, 0,
    EMPTY, 0, IGNORE + UNCHANGED,
    LONE_FLOAT, 0, IN_MEMORY + UNCHANGED,
    ANYTHING, 0, AS_INTEGERS + MEMORY_AND_DRAIN,
    NO_RULE, 0, 0,
];

#[rattlefmt::skip]
pub const I386_SYSV_REGPARM_2_STDCALL: [u8; WIDTH] = [
    2, 0, 4, 8,
    WIDE_INTEGER_IS_ALL_OR_NOTHING + WIDE_INTEGER_DRAINS + QUAD_RETURNS_BY_REFERENCE,
    NO_FORMAT,
    FIRST_ARGUMENT + SAME_AS_FIXED,
    REGISTER_SIZED + UNSPECIFIED + UNTAUGHT + CALLEE,
    EMPTY, 0, IGNORE + UNCHANGED,
    COMPLEX_FLOAT, 0, AS_INTEGERS + UNCHANGED,
    ANYTHING, 0, BY_REFERENCE + UNCHANGED,
    NO_RULE, 0, 0,
    EMPTY, 0, IGNORE + UNCHANGED,
    LONE_FLOAT, 0, IN_MEMORY + UNCHANGED,
    ANYTHING, 0, AS_INTEGERS + MEMORY_AND_DRAIN,
    NO_RULE, 0, 0,
];

#[rattlefmt::skip]
pub const I386_SYSV_REGPARM_3_STDCALL: [u8; WIDTH] = [
    3, 0, 4, 8,
    WIDE_INTEGER_IS_ALL_OR_NOTHING + WIDE_INTEGER_DRAINS + QUAD_RETURNS_BY_REFERENCE,
    NO_FORMAT,
    FIRST_ARGUMENT + SAME_AS_FIXED,
    REGISTER_SIZED + UNSPECIFIED + UNTAUGHT + CALLEE,
    EMPTY, 0, IGNORE + UNCHANGED,
    COMPLEX_FLOAT, 0, AS_INTEGERS + UNCHANGED,
    ANYTHING, 0, BY_REFERENCE + UNCHANGED,
    NO_RULE, 0, 0,
    EMPTY, 0, IGNORE + UNCHANGED,
    LONE_FLOAT, 0, IN_MEMORY + UNCHANGED,
    ANYTHING, 0, AS_INTEGERS + MEMORY_AND_DRAIN,
    NO_RULE, 0, 0,
];

#[rattlefmt::skip]
pub const I386_SYSV_REG_STRUCT_STDCALL: [u8; WIDTH] = [
    0, 0, 4, 8,
    QUAD_RETURNS_BY_REFERENCE,
    NO_FORMAT,
    FIRST_ARGUMENT + SAME_AS_FIXED,
    REGISTER_SIZED + UNSPECIFIED + UNTAUGHT + CALLEE,
    EMPTY, 0, IGNORE + UNCHANGED,
    LONE_FLOAT, 0, AS_FOUND + UNCHANGED,
    SIZE_ONE_OF, ONE_TWO_FOUR_EIGHT, AS_INTEGERS + UNCHANGED,
    ANYTHING, 0, BY_REFERENCE + UNCHANGED,
    EMPTY, 0, IGNORE + UNCHANGED,
    ANYTHING, 0, IN_MEMORY + UNCHANGED,
    NO_RULE, 0, 0,
    NO_RULE, 0, 0,
];

#[rattlefmt::skip]
pub const I386_SYSV_REGPARM_1_REG_STRUCT_STDCALL: [u8; WIDTH] = [
    1, 0, 4, 8,
    WIDE_INTEGER_IS_ALL_OR_NOTHING + WIDE_INTEGER_DRAINS + QUAD_RETURNS_BY_REFERENCE,
    NO_FORMAT,
    FIRST_ARGUMENT + SAME_AS_FIXED,
    REGISTER_SIZED + UNSPECIFIED + UNTAUGHT + CALLEE,
    EMPTY, 0, IGNORE + UNCHANGED,
    LONE_FLOAT, 0, AS_FOUND + UNCHANGED,
    SIZE_ONE_OF, ONE_TWO_FOUR_EIGHT, AS_INTEGERS + UNCHANGED,
    ANYTHING, 0, BY_REFERENCE + UNCHANGED,
    EMPTY, 0, IGNORE + UNCHANGED,
    LONE_FLOAT, 0, IN_MEMORY + UNCHANGED,
    ANYTHING, 0, AS_INTEGERS + MEMORY_AND_DRAIN,
    NO_RULE, 0, 0,
];

#[rattlefmt::skip]
pub const I386_SYSV_REGPARM_2_REG_STRUCT_STDCALL: [u8; WIDTH] = [
    2, 0, 4, 8,
    WIDE_INTEGER_IS_ALL_OR_NOTHING + WIDE_INTEGER_DRAINS + QUAD_RETURNS_BY_REFERENCE,
    NO_FORMAT,
    FIRST_ARGUMENT + SAME_AS_FIXED,
    REGISTER_SIZED + UNSPECIFIED + UNTAUGHT + CALLEE,
    EMPTY, 0, IGNORE + UNCHANGED,
    LONE_FLOAT, 0, AS_FOUND + UNCHANGED,
    SIZE_ONE_OF, ONE_TWO_FOUR_EIGHT, AS_INTEGERS + UNCHANGED,
    ANYTHING, 0, BY_REFERENCE + UNCHANGED,
    EMPTY, 0, IGNORE + UNCHANGED,
    LONE_FLOAT, 0, IN_MEMORY + UNCHANGED,
    ANYTHING, 0, AS_INTEGERS + MEMORY_AND_DRAIN,
    NO_RULE, 0, 0,
];

#[rattlefmt::skip]
pub const I386_SYSV_REGPARM_3_REG_STRUCT_STDCALL: [u8; WIDTH] = [
    3, 0, 4, 8,
    WIDE_INTEGER_IS_ALL_OR_NOTHING + WIDE_INTEGER_DRAINS + QUAD_RETURNS_BY_REFERENCE,
    NO_FORMAT,
    FIRST_ARGUMENT + SAME_AS_FIXED,
    REGISTER_SIZED + UNSPECIFIED + UNTAUGHT + CALLEE,
    EMPTY, 0, IGNORE + UNCHANGED,
    LONE_FLOAT, 0, AS_FOUND + UNCHANGED,
    SIZE_ONE_OF, ONE_TWO_FOUR_EIGHT, AS_INTEGERS + UNCHANGED,
    ANYTHING, 0, BY_REFERENCE + UNCHANGED,
    EMPTY, 0, IGNORE + UNCHANGED,
    LONE_FLOAT, 0, IN_MEMORY + UNCHANGED,
    ANYTHING, 0, AS_INTEGERS + MEMORY_AND_DRAIN,
    NO_RULE, 0, 0,
];

// fastcall: a record is on the stack and its words are spent all the same; what has a floating mode spends nothing. The address of a
// result is in ecx.
#[rattlefmt::skip]
pub const I386_SYSV_FASTCALL: [u8; WIDTH] = [
    2, 0, 4, 8,
    WIDE_INTEGER_IN_MEMORY + QUAD_RETURNS_BY_REFERENCE,
    NO_FORMAT,
    FIRST_ARGUMENT + SAME_AS_FIXED,
    REGISTER_SIZED + UNSPECIFIED + UNTAUGHT + CALLEE,
    EMPTY, 0, IGNORE + UNCHANGED,
    COMPLEX_FLOAT, 0, AS_INTEGERS + UNCHANGED,
    ANYTHING, 0, BY_REFERENCE + UNCHANGED,
    NO_RULE, 0, 0,
    EMPTY, 0, IGNORE + UNCHANGED,
    FLOATING_MODE, 0, IN_MEMORY + UNCHANGED,
    ANYTHING, 0, IN_MEMORY_AND_SPEND + UNCHANGED,
    NO_RULE, 0, 0,
];

#[rattlefmt::skip]
pub const I386_SYSV_REG_STRUCT_FASTCALL: [u8; WIDTH] = [
    2, 0, 4, 8,
    WIDE_INTEGER_IN_MEMORY + QUAD_RETURNS_BY_REFERENCE,
    NO_FORMAT,
    FIRST_ARGUMENT + SAME_AS_FIXED,
    REGISTER_SIZED + UNSPECIFIED + UNTAUGHT + CALLEE,
    EMPTY, 0, IGNORE + UNCHANGED,
    LONE_FLOAT, 0, AS_FOUND + UNCHANGED,
    SIZE_ONE_OF, ONE_TWO_FOUR_EIGHT, AS_INTEGERS + UNCHANGED,
    ANYTHING, 0, BY_REFERENCE + UNCHANGED,
    EMPTY, 0, IGNORE + UNCHANGED,
    FLOATING_MODE, 0, IN_MEMORY + UNCHANGED,
    ANYTHING, 0, IN_MEMORY_AND_SPEND + UNCHANGED,
    NO_RULE, 0, 0,
];

// gcc's rule for records that come back is the default on Windows, and the caller takes the address of a result off.
#[rattlefmt::skip]
pub const I386_MINGW: [u8; WIDTH] = [
    0, 0, 4, 8,
    QUAD_RETURNS_BY_REFERENCE,
    NO_FORMAT,
    FIRST_ARGUMENT + SAME_AS_FIXED,
    REGISTER_SIZED + UNSPECIFIED + UNTAUGHT + CALLER,
    EMPTY, 0, IGNORE + UNCHANGED,
    LONE_FLOAT, 0, AS_FOUND + UNCHANGED,
    SIZE_ONE_OF, ONE_TWO_FOUR_EIGHT, AS_INTEGERS + UNCHANGED,
    ANYTHING, 0, BY_REFERENCE + UNCHANGED,
    EMPTY, 0, IGNORE + UNCHANGED,
    ANYTHING, 0, IN_MEMORY + UNCHANGED,
    NO_RULE, 0, 0,
    NO_RULE, 0, 0,
];

// Microsoft's compiler has no rule for a record of one float.
#[rattlefmt::skip]
pub const I386_MSVC: [u8; WIDTH] = [
    0, 0, 4, 8,
    QUAD_RETURNS_BY_REFERENCE,
    NO_FORMAT,
    FIRST_ARGUMENT + SAME_AS_FIXED,
    REGISTER_SIZED + UNSPECIFIED + UNTAUGHT + CALLER,
    EMPTY, 0, IGNORE + UNCHANGED,
    SIZE_ONE_OF, ONE_TWO_FOUR_EIGHT, AS_INTEGERS + UNCHANGED,
    ANYTHING, 0, BY_REFERENCE + UNCHANGED,
    NO_RULE, 0, 0,
    EMPTY, 0, IGNORE + UNCHANGED,
    ANYTHING, 0, IN_MEMORY + UNCHANGED,
    NO_RULE, 0, 0,
    NO_RULE, 0, 0,
];

// How nearly all of the Windows API is declared.
#[rattlefmt::skip]
pub const I386_MINGW_STDCALL: [u8; WIDTH] = [
    0, 0, 4, 8,
    QUAD_RETURNS_BY_REFERENCE,
    NO_FORMAT,
    FIRST_ARGUMENT + SAME_AS_FIXED,
    REGISTER_SIZED + UNSPECIFIED + UNTAUGHT + CALLEE,
    EMPTY, 0, IGNORE + UNCHANGED,
    LONE_FLOAT, 0, AS_FOUND + UNCHANGED,
    SIZE_ONE_OF, ONE_TWO_FOUR_EIGHT, AS_INTEGERS + UNCHANGED,
    ANYTHING, 0, BY_REFERENCE + UNCHANGED,
    EMPTY, 0, IGNORE + UNCHANGED,
    ANYTHING, 0, IN_MEMORY + UNCHANGED,
    NO_RULE, 0, 0,
    NO_RULE, 0, 0,
];

#[rattlefmt::skip]
pub const I386_MINGW_FASTCALL: [u8; WIDTH] = [
    2, 0, 4, 8,
    WIDE_INTEGER_IN_MEMORY + QUAD_RETURNS_BY_REFERENCE,
    NO_FORMAT,
    FIRST_ARGUMENT + SAME_AS_FIXED,
    REGISTER_SIZED + UNSPECIFIED + UNTAUGHT + CALLEE,
    EMPTY, 0, IGNORE + UNCHANGED,
    LONE_FLOAT, 0, AS_FOUND + UNCHANGED,
    SIZE_ONE_OF, ONE_TWO_FOUR_EIGHT, AS_INTEGERS + UNCHANGED,
    ANYTHING, 0, BY_REFERENCE + UNCHANGED,
    EMPTY, 0, IGNORE + UNCHANGED,
    FLOATING_MODE, 0, IN_MEMORY + UNCHANGED,
    ANYTHING, 0, IN_MEMORY_AND_SPEND + UNCHANGED,
    NO_RULE, 0, 0,
];

#[rattlefmt::skip]
pub const I386_MSVC_STDCALL: [u8; WIDTH] = [
    0, 0, 4, 8,
    QUAD_RETURNS_BY_REFERENCE,
    NO_FORMAT,
    FIRST_ARGUMENT + SAME_AS_FIXED,
    REGISTER_SIZED + UNSPECIFIED + UNTAUGHT + CALLEE,
    EMPTY, 0, IGNORE + UNCHANGED,
    SIZE_ONE_OF, ONE_TWO_FOUR_EIGHT, AS_INTEGERS + UNCHANGED,
    ANYTHING, 0, BY_REFERENCE + UNCHANGED,
    NO_RULE, 0, 0,
    EMPTY, 0, IGNORE + UNCHANGED,
    ANYTHING, 0, IN_MEMORY + UNCHANGED,
    NO_RULE, 0, 0,
    NO_RULE, 0, 0,
];

#[rattlefmt::skip]
pub const I386_MSVC_FASTCALL: [u8; WIDTH] = [
    2, 0, 4, 8,
    WIDE_INTEGER_IN_MEMORY + QUAD_RETURNS_BY_REFERENCE,
    NO_FORMAT,
    FIRST_ARGUMENT + SAME_AS_FIXED,
    REGISTER_SIZED + UNSPECIFIED + UNTAUGHT + CALLEE,
    EMPTY, 0, IGNORE + UNCHANGED,
    SIZE_ONE_OF, ONE_TWO_FOUR_EIGHT, AS_INTEGERS + UNCHANGED,
    ANYTHING, 0, BY_REFERENCE + UNCHANGED,
    NO_RULE, 0, 0,
    EMPTY, 0, IGNORE + UNCHANGED,
    FLOATING_MODE, 0, IN_MEMORY + UNCHANGED,
    ANYTHING, 0, IN_MEMORY_AND_SPEND + UNCHANGED,
    NO_RULE, 0, 0,
];

// RISC-V by its own book: what finds one register of two is split, a float that finds none falls to the integers, and unnamed pairs start at an
// even register. Here no register holds a float.
#[rattlefmt::skip]
pub const RISCV_PSABI_LP64: [u8; WIDTH] = [
    8, 0, 8, 0,
    NO_FLAG,
    NO_FORMAT + FLOAT_FALLS_TO_INTEGERS,
    FIRST_ARGUMENT + UNNAMED_INTEGERS_EVEN,
    REGISTER_SIZED + TO_INT + UNTAUGHT + CALLER,
    EMPTY, 0, IGNORE + UNCHANGED,
    FLOAT_PAIR, 0, AS_FOUND + UNCHANGED,
    SIZE_AT_MOST, 16, AS_INTEGERS + UNCHANGED,
    ANYTHING, 0, BY_REFERENCE + UNCHANGED,
    EMPTY, 0, IGNORE + UNCHANGED,
    FLOAT_PAIR, 0, AS_FOUND + TRY_NEXT_RULE,
    SIZE_AT_MOST, 16, AS_INTEGERS + SPLIT,
    ANYTHING, 0, BY_REFERENCE + UNCHANGED,
];

// The same, with registers for floats of 4.
#[rattlefmt::skip]
pub const RISCV_PSABI_LP64F: [u8; WIDTH] = [
    8, 8, 8, 4,
    NO_FLAG,
    NO_FORMAT + FLOAT_FALLS_TO_INTEGERS,
    FIRST_ARGUMENT + UNNAMED_INTEGERS_EVEN,
    REGISTER_SIZED + TO_INT + UNTAUGHT + CALLER,
    EMPTY, 0, IGNORE + UNCHANGED,
    FLOAT_PAIR, 0, AS_FOUND + UNCHANGED,
    SIZE_AT_MOST, 16, AS_INTEGERS + UNCHANGED,
    ANYTHING, 0, BY_REFERENCE + UNCHANGED,
    EMPTY, 0, IGNORE + UNCHANGED,
    FLOAT_PAIR, 0, AS_FOUND + TRY_NEXT_RULE,
    SIZE_AT_MOST, 16, AS_INTEGERS + SPLIT,
    ANYTHING, 0, BY_REFERENCE + UNCHANGED,
];

// And for floats of 8, as on row 5.
#[rattlefmt::skip]
pub const RISCV_PSABI_LP64D: [u8; WIDTH] = [
    8, 8, 8, 8,
    NO_FLAG,
    NO_FORMAT + FLOAT_FALLS_TO_INTEGERS,
    FIRST_ARGUMENT + UNNAMED_INTEGERS_EVEN,
    REGISTER_SIZED + TO_INT + UNTAUGHT + CALLER,
    EMPTY, 0, IGNORE + UNCHANGED,
    FLOAT_PAIR, 0, AS_FOUND + UNCHANGED,
    SIZE_AT_MOST, 16, AS_INTEGERS + UNCHANGED,
    ANYTHING, 0, BY_REFERENCE + UNCHANGED,
    EMPTY, 0, IGNORE + UNCHANGED,
    FLOAT_PAIR, 0, AS_FOUND + TRY_NEXT_RULE,
    SIZE_AT_MOST, 16, AS_INTEGERS + SPLIT,
    ANYTHING, 0, BY_REFERENCE + UNCHANGED,
];

// The names, by the same numbers.
#[tactic(auto, unfolding(crate::specs::Abis::described, crate::specs::Abis::descriptions))]
pub fn name_of(d: u64) -> Option<&'static [u8]>
    ensures { option_copied result ≡ name_found d }
{
    match d {
        0 => Some(b"SysV AMD64"),
        1 => Some(b"AAPCS64"),
        2 => Some(b"Darwin arm64"),
        3 => Some(b"Windows arm64"),
        4 => Some(b"Windows x64"),
        5 => Some(b"RISC-V LP64D"),
        6 => Some(b"i386 SysV"),
        7 => Some(b"i386 SysV regparm(1)"),
        8 => Some(b"i386 SysV regparm(2)"),
        9 => Some(b"i386 SysV regparm(3)"),
        10 => Some(b"i386 SysV -freg-struct-return"),
        11 => Some(b"i386 SysV regparm(1) -freg-struct-return"),
        12 => Some(b"i386 SysV regparm(2) -freg-struct-return"),
        13 => Some(b"i386 SysV regparm(3) -freg-struct-return"),
        14 => Some(b"i386 SysV stdcall"),
        15 => Some(b"i386 SysV stdcall regparm(1)"),
        16 => Some(b"i386 SysV stdcall regparm(2)"),
        17 => Some(b"i386 SysV stdcall regparm(3)"),
        18 => Some(b"i386 SysV stdcall -freg-struct-return"),
        19 => Some(b"i386 SysV stdcall regparm(1) -freg-struct-return"),
        20 => Some(b"i386 SysV stdcall regparm(2) -freg-struct-return"),
        21 => Some(b"i386 SysV stdcall regparm(3) -freg-struct-return"),
        22 => Some(b"i386 SysV fastcall"),
        23 => Some(b"i386 SysV fastcall -freg-struct-return"),
        24 => Some(b"i386 Windows (mingw)"),
        25 => Some(b"i386 Windows (MSVC)"),
        26 => Some(b"i386 Windows stdcall (mingw)"),
        27 => Some(b"i386 Windows fastcall (mingw)"),
        28 => Some(b"i386 Windows stdcall (MSVC)"),
        29 => Some(b"i386 Windows fastcall (MSVC)"),
        30 => Some(b"RISC-V LP64 psABI"),
        31 => Some(b"RISC-V LP64F psABI"),
        32 => Some(b"RISC-V LP64D psABI"),
        _ => None,
    }
}
