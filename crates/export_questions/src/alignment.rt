// What a value that stands in the argument area is aligned to there, in numbers.
ghost use Rattle.std.specs.Prelude.{◌≡◌};
ghost use Rattle.classify.specs.Answers.{in_memory_answer};
ghost use Rattle.export_numbers.specs.Numbers.{call_from, shape_from};
ghost use Rattle.export_questions.specs.Answers.{align_told};

use export_numbers::Told;

// What a fixed argument that travels as Memory is aligned to in the argument area.
pub fn barkpaddle_in_memory(
    abi: u64,
    integer: u64,
    float: u64,
    integers_only: u64,
    stack: u64,
    size: u64,
    align: u64,
    complex: u64,
    floating: u64,
    words: &[u64],
) -> Told
    ensures { result ≡ align_told (in_memory_answer (call_from abi integer float integers_only stack) (shape_from size align complex floating) words.now) }
{
    let call = export_numbers::call_from(abi, integer, float, integers_only, stack);
    Told::from(call.in_memory(
        export_numbers::shape_from(size, align, complex, floating),
        words,
    ))
}
