// The entries, exported by c_arguments, that start a call, mark it, and ask for its fixed arguments, in numbers and slices (REFERENCE 13.2). The call comes as
// its description, the counts left, the mark and the stack offset, and goes back in the answer. Returns, arguments after the dots and questions are entries of
// crates of their own: what the entries of one archive share isn't inlined into any of them (docs/DECISIONS.md).
#![tactic(auto)]

ghost use Rattle.std.specs.Prelude.{◌≡◌, []};
ghost use Rattle.export_numbers.specs.Numbers.{call_from, void_arg, scalar_from, aggregate_from};
ghost use Rattle.classify.specs.Answers.{fresh_answer, variadic_answer, Passes};

use classify::{Answer, Call};
use shape::Scalar;

// The start of a call on a description.
pub fn barkpaddle_fresh(abi: u64) -> Answer
    ensures { result ≡ fresh_answer abi }
{
    Call::fresh(abi)
}

// The same call, to a function whose parameters end in dots.
pub fn barkpaddle_variadic(
    abi: u64,
    integer: u64,
    float: u64,
    integers_only: u64,
    stack: u64,
) -> Answer
    ensures { result ≡ variadic_answer (call_from abi integer float integers_only stack) }
{
    let call = export_numbers::call_from(abi, integer, float, integers_only, stack);
    call.variadic()
}

// How the next fixed argument travels: nothing travels.
pub fn barkpaddle_argument_void(
    abi: u64,
    integer: u64,
    float: u64,
    integers_only: u64,
    stack: u64,
    slots: &mut [u64],
) -> Answer
    ensures { Passes (call_from abi integer float integers_only stack) void_arg [] slots.old result slots.new }
{
    let call = export_numbers::call_from(abi, integer, float, integers_only, stack);
    call.nothing()
}

// How the next fixed argument travels: a scalar.
pub fn barkpaddle_argument_scalar(
    abi: u64,
    integer: u64,
    float: u64,
    integers_only: u64,
    stack: u64,
    kind: u64,
    size: u64,
    align: u64,
    slots: &mut [u64],
) -> Answer
    ensures { Passes (call_from abi integer float integers_only stack) (scalar_from kind size align) [] slots.old result slots.new }
{
    let call = export_numbers::call_from(abi, integer, float, integers_only, stack);
    call.argument_scalar(Scalar { kind, size, align }, slots)
}

// How the next fixed argument travels: an aggregate, its pieces as words.
pub fn barkpaddle_argument_aggregate(
    abi: u64,
    integer: u64,
    float: u64,
    integers_only: u64,
    stack: u64,
    size: u64,
    align: u64,
    complex: u64,
    floating: u64,
    words: &[u64],
    slots: &mut [u64],
) -> Answer
    ensures { Passes (call_from abi integer float integers_only stack) (aggregate_from size align complex floating) words.now slots.old result slots.new }
{
    let call = export_numbers::call_from(abi, integer, float, integers_only, stack);
    let shape = export_numbers::shape_from(size, align, complex, floating);
    call.argument_aggregate(shape, words, slots)
}
