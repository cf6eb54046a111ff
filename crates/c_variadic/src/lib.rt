// How an argument after the dots travels (REFERENCE 13.2), for C: each function hands on what it is handed to the one of its name in
// export_variadic, and states its clauses again (docs/DECISIONS.md, "A crate for each operation").
#![tactic(auto)]

ghost use Rattle.std.specs.Prelude.{[]};
ghost use Rattle.export_numbers.specs.Numbers.{call_from, void_arg, scalar_from, aggregate_from};
ghost use Rattle.classify.specs.Answers.{PassesVariadic};

use classify::Answer;

// How the next argument after the dots travels: nothing travels.
#[unsafe(no_mangle)]
pub extern "C" fn barkpaddle_variadic_argument_void(
    abi: u64,
    integer: u64,
    float: u64,
    integers_only: u64,
    stack: u64,
    slots: &mut [u64],
) -> Answer
    ensures { PassesVariadic (call_from abi integer float integers_only stack) void_arg [] slots.old result slots.new }
{
    export_variadic::barkpaddle_variadic_argument_void(
        abi,
        integer,
        float,
        integers_only,
        stack,
        slots,
    )
}

// How the next argument after the dots travels: a scalar.
#[unsafe(no_mangle)]
pub extern "C" fn barkpaddle_variadic_argument_scalar(
    abi: u64,
    integer: u64,
    float: u64,
    integers_only: u64,
    stack: u64,
    kind: u64,
    size: u64,
    align: u64,
    slots: &mut [u64],
) -> Answer
    ensures { PassesVariadic (call_from abi integer float integers_only stack) (scalar_from kind size align) [] slots.old result slots.new }
{
    export_variadic::barkpaddle_variadic_argument_scalar(
        abi,
        integer,
        float,
        integers_only,
        stack,
        kind,
        size,
        align,
        slots,
    )
}

// How the next argument after the dots travels: an aggregate, its pieces as words.
#[unsafe(no_mangle)]
pub extern "C" fn barkpaddle_variadic_argument_aggregate(
    abi: u64,
    integer: u64,
    float: u64,
    integers_only: u64,
    stack: u64,
    size: u64,
    align: u64,
    complex: u64,
    floating: u64,
    words: &[u64],
    slots: &mut [u64],
) -> Answer
    ensures { PassesVariadic (call_from abi integer float integers_only stack) (aggregate_from size align complex floating) words.now slots.old result slots.new }
{
    export_variadic::barkpaddle_variadic_argument_aggregate(
        abi,
        integer,
        float,
        integers_only,
        stack,
        size,
        align,
        complex,
        floating,
        words,
        slots,
    )
}
