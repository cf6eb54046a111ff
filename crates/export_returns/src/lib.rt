// The entries, exported by c_returns, that say how the return value of a call comes back, in numbers and slices (REFERENCE 13.2). The call comes as its
// description, the counts left, the mark and the stack offset, and goes back in the answer.
#![tactic(auto)]

ghost use Rattle.std.specs.Prelude.{[]};
ghost use Rattle.export_numbers.specs.Numbers.{call_from, void_arg, scalar_from, aggregate_from};
ghost use Rattle.classify.specs.Answers.{Returns};

use classify::Answer;
use shape::Scalar;

// How the return value comes back: nothing travels.
pub fn barkpaddle_return_void(
    abi: u64,
    integer: u64,
    float: u64,
    integers_only: u64,
    stack: u64,
    slots: &mut [u64],
) -> Answer
    ensures { Returns (call_from abi integer float integers_only stack) void_arg [] slots.old result slots.new }
{
    let call = export_numbers::call_from(abi, integer, float, integers_only, stack);
    call.nothing()
}

// How the return value comes back: a scalar.
pub fn barkpaddle_return_scalar(
    abi: u64,
    integer: u64,
    float: u64,
    integers_only: u64,
    stack: u64,
    kind: u64,
    size: u64,
    align: u64,
    slots: &mut [u64],
) -> Answer
    ensures { Returns (call_from abi integer float integers_only stack) (scalar_from kind size align) [] slots.old result slots.new }
{
    let call = export_numbers::call_from(abi, integer, float, integers_only, stack);
    call.returns_scalar(Scalar { kind, size, align }, slots)
}

// How the return value comes back: an aggregate, its pieces as words.
pub fn barkpaddle_return_aggregate(
    abi: u64,
    integer: u64,
    float: u64,
    integers_only: u64,
    stack: u64,
    size: u64,
    align: u64,
    complex: u64,
    floating: u64,
    words: &[u64],
    slots: &mut [u64],
) -> Answer
    ensures { Returns (call_from abi integer float integers_only stack) (aggregate_from size align complex floating) words.now slots.old result slots.new }
{
    let call = export_numbers::call_from(abi, integer, float, integers_only, stack);
    let shape = export_numbers::shape_from(size, align, complex, floating);
    call.returns_aggregate(shape, words, slots)
}
