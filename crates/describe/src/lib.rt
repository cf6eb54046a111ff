// The language of descriptions (REFERENCE 5): what a description says, the questions that its scalar rules answer by themselves, and
// what its variadic kind comes to. The crate rows reads a description from a row of bytes.
#![tactic(auto)]

ghost use Rattle.std.specs.Prelude.{◌≡◌};
ghost use Rattle.describe.specs.Questions.{is_by_reference, returns_by_reference, wide_returns_in, register_size};
ghost use Rattle.describe.specs.Dots.{dots_of, as_fixed};

// What an aggregate has to look like for a rule to apply. A test is an idea that several conventions share; which of them a convention
// asks, in which order and with which limit, is its description. SizeOneOf has a count, and of the four sizes behind it the first so many.
// kept: a count and four sizes and no slice, since the definitions of specs/ are over this enum (describe/specs/Description.antt).
#[derive(Clone, Copy, Debug, PartialEq, Eq)]
pub enum Test {
    // The last rule of every list, so that some rule decides.
    Anything,
    // GNU C's empty record: no byte of it could travel.
    Empty,
    // Windows x64's one rule, and the sizes to which gcc gives an integer's machine mode on 32-bit x86.
    SizeOneOf(u64, u64, u64, u64, u64),
    // What two integer registers hold, on 64-bit Arm and RISC-V.
    SizeAtMost(u64),
    // Equal floats that fill the aggregate: AAPCS64 gives each a float register, up to four. An integer among them, or padding behind
    // them, and it goes by its size.
    Homogeneous(u64),
    // RISC-V's own: each of one or two members in a register of its bank, a float among them. None may be wider than such a register,
    // so a record of a long double goes by its size.
    FloatPair,
    // For what comes back on SysV AMD64: a long double, or the two of a complex one, in st0 and st1. A record of two long doubles has the
    // same bytes and comes back in memory; only the complex mark tells them apart.
    X87Stack,
    // gcc on 32-bit x86 gives a record of one float or double the mode of its member, so it goes where that float goes. A second member
    // makes it an ordinary record.
    LoneFloat,
    // What fastcall asks of an argument: without an integer's mode it takes no register. It reads marks, since pieces don't tell a union
    // of one float, which has no such mode, from a record of one.
    FloatingMode,
    // The one aggregate that comes back in registers on 32-bit Linux by default: a complex float is no structure, a record of two
    // floats is one.
    ComplexFloat,
    // SysV AMD64's classes, where none of them says memory or x87.
    Eightbytes(u64),
}

// How it travels where the test matched.
#[derive(Clone, Copy, Debug, PartialEq, Eq)]
pub enum Travel {
    Ignore,
    // In the slots of a test that looked inside: floats in float registers.
    AsFound,
    // A register for each word, whatever is in it. The last has only what is left: a load of the full width could read past the
    // object, and past the last page that may be read.
    AsIntegers,
    // Windows x64: a record of two floats is in rcx, not in xmm0.
    AsOneInteger,
    // The address takes the place that the value would have had.
    ByReference,
    InMemory,
    // fastcall, as gcc counts: the record is on the stack, and its words are taken off the registers all the same.
    InMemoryAndSpend,
}

// What happens where the registers that a rule wanted are not there. Tests by hand seldom pass so many arguments, so a wrong case stays
// unseen for long.
#[derive(Clone, Copy, Debug, PartialEq, Eq)]
pub enum Short {
    // Windows x64, where an argument behind the fourth has the form of the first; and rules that want no registers.
    Unchanged,
    // SysV AMD64: an aggregate that doesn't fit keeps no register from a later argument that does.
    Memory,
    // AAPCS64, RISC-V and regparm: the sequence of registers is to have no hole that a later argument could fill.
    MemoryAndDrain,
    // RISC-V's float pair: a bonus, behind which the rule of the size still finds what registers there are.
    TryNextRule,
    // RISC-V's own book: of two words the first has the last register, and the second stands on the stack, next to it once the callee has
    // stored its registers there. With no register left, all of it is there.
    Split,
}

// Rules are tried in order, and the first whose test matches decides: a list reads as a convention's document does, exceptions first.
#[derive(Clone, Copy, Debug, PartialEq, Eq)]
pub struct Rule {
    pub when: Test,
    pub then: Travel,
    pub short: Short,
}

// The registers that a call starts with. With shared banks every spend comes out of the integer one: on Windows x64 rcx and xmm0 are one
// position, and a value takes the next position whichever register it has there.
#[derive(Clone, Copy, Debug, PartialEq, Eq)]
pub struct Banks {
    pub integer: u64,
    pub float: u64,
    pub shared: bool,
    // Of a register, and of a place in the argument area where there are no registers.
    pub integer_width: u64,
    // A wider float goes by integers. That is what sets RISC-V LP64D (8) apart from AAPCS64 (16) for a long double.
    pub float_width: u64,
}

// How a scalar spends registers. `in_memory` and `wide_integer_returns_in` are kinds of formats, or 0, the integer kind, for none.
// kept: 0 and no Option, since the descriptions of abis/specs/Abis.antt are made of this struct.
#[derive(Clone, Copy, Debug, PartialEq, Eq)]
pub struct Scalars {
    // The x87 format on SysV AMD64: no argument register takes it.
    pub in_memory: u64,
    // An integer of 16 on SysV AMD64: half of it in the last register would cost a later argument that register.
    pub wide_integer_is_all_or_nothing: bool,
    // AAPCS64's C.10, for an alignment of 16; not Apple's.
    pub wide_integer_starts_even: bool,
    // AAPCS64's C.13, Apple's too. On SysV AMD64 later arguments get what is left.
    pub wide_integer_drains: bool,
    // Windows x64, whose rule is about the size of an object and not about what is in it.
    pub wide_is_by_reference: bool,
    // gcc's own answer on Windows x64, which has no integer of 16: xmm0.
    pub wide_integer_returns_in: u64,
    // fastcall: ecx and edx are for integers of a word, and a wider one takes them along, as gcc counts.
    pub wide_integer_in_memory: bool,
    // gcc on Windows x64, where vector registers are for float and double alone.
    pub decimal_in_integers: bool,
    // 32-bit x86: a float of 16 fits in the argument area, but in no register that results come back in.
    pub quad_returns_by_reference: bool,
    // RISC-V's own book: behind the last float register a float goes like an integer of its size.
    pub float_falls_to_integers: bool,
}

// Where the address of a return value in memory travels. The first two spend an argument register where there is one: a function that
// returns a large record has one fewer for its arguments, so what comes back is asked about first.
#[derive(Clone, Copy, Debug, PartialEq, Eq)]
pub enum ReturnPointer {
    FirstArgument,
    // 32-bit x86 but for Windows: the callee takes it off the stack (ret $4), which its caller has to know.
    FirstArgumentPopped,
    // AAPCS64's x8, which is no argument register.
    Dedicated,
}

// What an argument after the dots does differently.
#[derive(Clone, Copy, Debug, PartialEq, Eq)]
pub enum Variadic {
    SameAsFixed,
    // Darwin arm64, whatever registers are left.
    AlwaysMemory,
    // Windows x64: the callee can't know which bank a float is in.
    BothBanks,
    // Windows arm64: the callee stores x0 to x7 below the arguments in memory and walks both with one pointer, so all arguments, named
    // ones too, have to be there.
    IntegersOnly,
    // RISC-V: the callee does the same with a0 to a7, but for the unnamed arguments alone.
    UnnamedIntegers,
    // RISC-V's own book: likewise, and a value of such an alignment begins at an even register, so that it is aligned in that run of words.
    UnnamedIntegersEven,
}

// How arguments without a register sit in the argument area.
#[derive(Clone, Copy, Debug, PartialEq, Eq)]
pub enum StackArgs {
    RegisterSized,
    // Darwin arm64. With whole registers instead, the ninth argument on would be garbage, there and nowhere else.
    Packed,
}

// What stands above an integer narrower than an int in its register. A bridge does well to extend always: clang's callees trust in it even
// where no document says so.
#[derive(Clone, Copy, Debug, PartialEq, Eq)]
pub enum Narrow {
    // Whoever receives the value reads the bits of its type alone.
    Unspecified,
    // RISC-V by its document, Darwin arm64 by what clang relies on, on both sides.
    ToInt,
    // SysV AMD64: no document says it, but callers extend, and callees and hand-written assembly rely on it.
    ArgsToInt,
}

// What stands above a bit-precise integer in its register: apart from `Narrow`, since documents answer it apart. RISC-V extends a char to
// 32 bits, and a bit-precise integer to the whole register.
#[derive(Clone, Copy, Debug, PartialEq, Eq)]
pub enum BitInts {
    SpareBits,
    // Nobody has checked the rule, so a generator refuses such a function by name.
    Untaught,
}

// Who takes the argument area off the stack. The callee where it is stdcall or fastcall, by ret $n; what is in a register isn't counted. A
// function with dots can't be either: only its caller knows how many bytes there are.
#[derive(Clone, Copy, Debug, PartialEq, Eq)]
pub enum Cleanup {
    Caller,
    Callee,
}

// What classification reads of a description, beside its two lists of rules.
#[derive(Clone, Copy, Debug, PartialEq, Eq)]
pub struct Terms {
    pub banks: Banks,
    pub scalars: Scalars,
    pub return_pointer: ReturnPointer,
    pub variadic: Variadic,
    pub stack_args: StackArgs,
}

// The fields that it doesn't read. They are here because a description says the whole convention, and a generator reads them at the same
// place.
#[derive(Clone, Copy, Debug, PartialEq, Eq)]
pub struct Others {
    pub narrow: Narrow,
    pub bit_ints: BitInts,
    pub cleanup: Cleanup,
}

// What a variadic kind comes to. `mark`: a call to a variadic function is marked, and floats go in integer registers alone, those of named
// arguments too. `emptied`: an argument after the dots is classified as though no register were left, and spends none. `integers_only`: such
// an argument goes in integer registers alone, and no other does. `starts_even`: one that is aligned to two words, and no larger, begins at an
// even register.
#[derive(Clone, Copy, Debug, Default, PartialEq, Eq)]
pub struct Dots {
    pub mark: bool,
    pub emptied: bool,
    pub integers_only: bool,
    pub starts_even: bool,
}

// A float in both banks has the form of a fixed argument: which registers are written is the generator's part.
pub fn dots_of(variadic: Variadic) -> Dots
    ensures { result ≡ dots_of variadic }
{
    match variadic {
        Variadic::SameAsFixed | Variadic::BothBanks => as_fixed(),
        Variadic::AlwaysMemory => Dots {
            emptied: true,
            ..as_fixed()
        },
        Variadic::IntegersOnly => Dots {
            mark: true,
            ..as_fixed()
        },
        Variadic::UnnamedIntegers => Dots {
            integers_only: true,
            ..as_fixed()
        },
        Variadic::UnnamedIntegersEven => Dots {
            integers_only: true,
            starts_even: true,
            ..as_fixed()
        },
    }
}

// Nothing that a fixed argument wouldn't do, and nothing marked.
pub fn as_fixed() -> Dots
    ensures { result ≡ as_fixed }
{
    Dots::default()
}

// Whether a scalar of this size travels as the address of a copy. The rule knows no more than the size, so whoever writes a call to a
// runtime routine can ask it without a C type.
pub fn scalar_is_by_reference(scalars: Scalars, size: u64) -> bool
    ensures { result ≡ is_by_reference scalars size }
{
    scalars.wide_is_by_reference && !register_size(size)
}

// Whether a scalar of this size comes back through the address that the caller passes.
pub fn scalar_returns_by_reference(scalars: Scalars, size: u64) -> bool
    ensures { result ≡ returns_by_reference scalars size }
{
    scalar_is_by_reference(scalars, size) | (scalars.quad_returns_by_reference & (size == 16))
}

// The format that an integer of this size comes back in where it is by reference otherwise, or 0 for none. It isn't the question above
// turned round: on Windows x64 an integer of 16 goes in as an address and comes back in xmm0.
pub fn wide_integer_returns_in(scalars: Scalars, size: u64) -> u64
    ensures { result ≡ wide_returns_in scalars size }
{
    if scalar_is_by_reference(scalars, size) {
        scalars.wide_integer_returns_in
    } else {
        0
    }
}

fn register_size(size: u64) -> bool
    ensures { result ≡ register_size size }
{
    matches!(size, 1 | 2 | 4 | 8)
}
