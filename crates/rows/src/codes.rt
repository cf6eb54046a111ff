// The values that a row of bytes is made of. Those that share a byte are added: each has its own place in it.

// A rule's first byte is its test, or NO_RULE past the end of a list.
pub const NO_RULE: u8 = 0;

pub const ANYTHING: u8 = 1;

pub const EMPTY: u8 = 2;

pub const SIZE_ONE_OF: u8 = 3;

pub const SIZE_AT_MOST: u8 = 4;

pub const HOMOGENEOUS: u8 = 5;

pub const FLOAT_PAIR: u8 = 6;

pub const X87_STACK: u8 = 7;

pub const LONE_FLOAT: u8 = 8;

pub const FLOATING_MODE: u8 = 9;

pub const COMPLEX_FLOAT: u8 = 10;

pub const EIGHTBYTES: u8 = 11;

// Its second byte is the test's number. Of SIZE_ONE_OF that is two bits for each of four sizes, the first lowest: 0 for 1, 1 for
// 2, 2 for 4, 3 for 8.
pub const ONE_TWO_FOUR_EIGHT: u8 = 228;

// Its third byte is the way of travel, and what happens when short.
pub const IGNORE: u8 = 0;

pub const AS_FOUND: u8 = 1;

pub const AS_INTEGERS: u8 = 2;

pub const AS_ONE_INTEGER: u8 = 3;

pub const BY_REFERENCE: u8 = 4;

pub const IN_MEMORY: u8 = 5;

pub const IN_MEMORY_AND_SPEND: u8 = 6;

pub const UNCHANGED: u8 = 0;

pub const MEMORY: u8 = 8;

pub const MEMORY_AND_DRAIN: u8 = 16;

pub const TRY_NEXT_RULE: u8 = 24;

pub const SPLIT: u8 = 32;

// The flags of banks and scalar rules.
pub const NO_FLAG: u8 = 0;

pub const SHARED: u8 = 1;

pub const WIDE_INTEGER_IS_ALL_OR_NOTHING: u8 = 2;

pub const WIDE_INTEGER_STARTS_EVEN: u8 = 4;

pub const WIDE_INTEGER_DRAINS: u8 = 8;

pub const WIDE_IS_BY_REFERENCE: u8 = 16;

pub const WIDE_INTEGER_IN_MEMORY: u8 = 32;

pub const DECIMAL_IN_INTEGERS: u8 = 64;

pub const QUAD_RETURNS_BY_REFERENCE: u8 = 128;

// The two formats: a kind for the one in memory, eight times a kind for the one that wide integers return in; and the flag that the flags' own
// byte has no room for.
pub const NO_FORMAT: u8 = 0;

pub const X87_IN_MEMORY: u8 = 3;

pub const RETURNS_IN_QUAD: u8 = 32;

pub const FLOAT_FALLS_TO_INTEGERS: u8 = 64;

// Where the return pointer travels, and what arguments after the dots do.
pub const FIRST_ARGUMENT: u8 = 0;

pub const FIRST_ARGUMENT_POPPED: u8 = 1;

pub const DEDICATED: u8 = 2;

pub const SAME_AS_FIXED: u8 = 0;

pub const ALWAYS_MEMORY: u8 = 4;

pub const BOTH_BANKS: u8 = 8;

pub const INTEGERS_ONLY: u8 = 12;

pub const UNNAMED_INTEGERS: u8 = 16;

pub const UNNAMED_INTEGERS_EVEN: u8 = 20;

// Stack arguments, narrow integers, bit-precise integers, cleanup.
pub const REGISTER_SIZED: u8 = 0;

pub const PACKED: u8 = 1;

pub const UNSPECIFIED: u8 = 0;

pub const TO_INT: u8 = 2;

pub const ARGS_TO_INT: u8 = 4;

pub const SPARE_BITS: u8 = 0;

pub const UNTAUGHT: u8 = 8;

pub const CALLER: u8 = 0;

pub const CALLEE: u8 = 16;
