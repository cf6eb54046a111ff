// The entries, exported by c_variadic, that say how an argument after the dots travels, in numbers and slices (REFERENCE 13.2). The call comes as its
// description, the counts left, the mark and the stack offset, and goes back in the answer.
#![tactic(auto)]

ghost use Rattle.std.specs.Prelude.{[]};
ghost use Rattle.export_numbers.specs.Numbers.{call_from, void_arg, scalar_from, aggregate_from};
ghost use Rattle.classify.specs.Answers.{PassesVariadic};

use classify::Answer;
use shape::Scalar;

// How the next argument after the dots travels: nothing travels.
pub fn barkpaddle_variadic_argument_void(
    abi: u64,
    integer: u64,
    float: u64,
    integers_only: u64,
    stack: u64,
    slots: &mut [u64],
) -> Answer
    ensures { PassesVariadic (call_from abi integer float integers_only stack) void_arg [] slots.old result slots.new }
{
    let call = export_numbers::call_from(abi, integer, float, integers_only, stack);
    call.nothing()
}

// How the next argument after the dots travels: a scalar.
pub fn barkpaddle_variadic_argument_scalar(
    abi: u64,
    integer: u64,
    float: u64,
    integers_only: u64,
    stack: u64,
    kind: u64,
    size: u64,
    align: u64,
    slots: &mut [u64],
) -> Answer
    ensures { PassesVariadic (call_from abi integer float integers_only stack) (scalar_from kind size align) [] slots.old result slots.new }
{
    let call = export_numbers::call_from(abi, integer, float, integers_only, stack);
    call.variadic_argument_scalar(Scalar { kind, size, align }, slots)
}

// How the next argument after the dots travels: an aggregate, its pieces as words.
pub fn barkpaddle_variadic_argument_aggregate(
    abi: u64,
    integer: u64,
    float: u64,
    integers_only: u64,
    stack: u64,
    size: u64,
    align: u64,
    complex: u64,
    floating: u64,
    words: &[u64],
    slots: &mut [u64],
) -> Answer
    ensures { PassesVariadic (call_from abi integer float integers_only stack) (aggregate_from size align complex floating) words.now slots.old result slots.new }
{
    let call = export_numbers::call_from(abi, integer, float, integers_only, stack);
    let shape = export_numbers::shape_from(size, align, complex, floating);
    call.variadic_argument_aggregate(shape, words, slots)
}
