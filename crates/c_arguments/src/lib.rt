// The start of a call, the mark, and how its fixed arguments travel (REFERENCE 13.2), for C: each function hands on what it is handed to the
// one of its name in export_arguments, and states its clauses again (docs/DECISIONS.md, "A crate for each operation").
#![tactic(auto)]

ghost use Rattle.std.specs.Prelude.{◌≡◌, []};
ghost use Rattle.export_numbers.specs.Numbers.{call_from, void_arg, scalar_from, aggregate_from};
ghost use Rattle.classify.specs.Answers.{fresh_answer, variadic_answer, Passes};

use classify::Answer;

// The start of a call on a description.
#[unsafe(no_mangle)]
pub extern "C" fn barkpaddle_fresh(abi: u64) -> Answer
    ensures { result ≡ fresh_answer abi }
{
    export_arguments::barkpaddle_fresh(abi)
}

// The same call, to a function whose parameters end in dots.
#[unsafe(no_mangle)]
pub extern "C" fn barkpaddle_variadic(
    abi: u64,
    integer: u64,
    float: u64,
    integers_only: u64,
    stack: u64,
) -> Answer
    ensures { result ≡ variadic_answer (call_from abi integer float integers_only stack) }
{
    export_arguments::barkpaddle_variadic(abi, integer, float, integers_only, stack)
}

// How the next fixed argument travels: nothing travels.
#[unsafe(no_mangle)]
pub extern "C" fn barkpaddle_argument_void(
    abi: u64,
    integer: u64,
    float: u64,
    integers_only: u64,
    stack: u64,
    slots: &mut [u64],
) -> Answer
    ensures { Passes (call_from abi integer float integers_only stack) void_arg [] slots.old result slots.new }
{
    export_arguments::barkpaddle_argument_void(abi, integer, float, integers_only, stack, slots)
}

// How the next fixed argument travels: a scalar.
#[unsafe(no_mangle)]
pub extern "C" fn barkpaddle_argument_scalar(
    abi: u64,
    integer: u64,
    float: u64,
    integers_only: u64,
    stack: u64,
    kind: u64,
    size: u64,
    align: u64,
    slots: &mut [u64],
) -> Answer
    ensures { Passes (call_from abi integer float integers_only stack) (scalar_from kind size align) [] slots.old result slots.new }
{
    export_arguments::barkpaddle_argument_scalar(
        abi,
        integer,
        float,
        integers_only,
        stack,
        kind,
        size,
        align,
        slots,
    )
}

// How the next fixed argument travels: an aggregate, its pieces as words.
#[unsafe(no_mangle)]
pub extern "C" fn barkpaddle_argument_aggregate(
    abi: u64,
    integer: u64,
    float: u64,
    integers_only: u64,
    stack: u64,
    size: u64,
    align: u64,
    complex: u64,
    floating: u64,
    words: &[u64],
    slots: &mut [u64],
) -> Answer
    ensures { Passes (call_from abi integer float integers_only stack) (aggregate_from size align complex floating) words.now slots.old result slots.new }
{
    export_arguments::barkpaddle_argument_aggregate(
        abi,
        integer,
        float,
        integers_only,
        stack,
        size,
        align,
        complex,
        floating,
        words,
        slots,
    )
}
