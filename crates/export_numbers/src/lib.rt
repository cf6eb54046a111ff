// Calls and shapes from the numbers that the exported entries take (REFERENCE 13.1). What they answer is what the methods of a call answer. The
// entries stand in crates of their own, and none is here.
#![tactic(auto)]

ghost use Rattle.std.specs.Prelude.{◌≡◌};
ghost use Rattle.export_numbers.specs.Numbers.{call_from, shape_from, told_of};

use classify::Call;
use shape::{Refusal, Shape};
use spend::Left;

// A refusal, or one number.
#[repr(C)]
#[derive(Clone, Copy)]
pub struct Told {
    pub refusal: u64,
    pub value: u64,
}

// What is told of an answer: its number, or the number of the refusal beside 0.
impl From<Result<u64, Refusal>> for Told {
    ghost from_gives = { λ answer r. r ≡ told_of answer };

    fn from(answer: Result<u64, Refusal>) -> Told {
        match answer {
            Ok(value) => Told {
                refusal: shape::ACCEPTED,
                value,
            },
            Err(refusal) => Told {
                refusal: refusal.number(),
                value: 0,
            },
        }
    }
}

// A call from its description, the counts left, the mark and the stack offset.
pub fn call_from(abi: u64, integer: u64, float: u64, integers_only: u64, stack: u64) -> Call
    ensures { result ≡ call_from abi integer float integers_only stack }
{
    Call {
        abi,
        left: Left {
            integer,
            float,
            integers_only,
        },
        stack,
    }
}

// A shape from its numbers.
pub fn shape_from(size: u64, align: u64, complex: u64, floating: u64) -> Shape
    ensures { result ≡ shape_from size align complex floating }
{
    Shape {
        size,
        align,
        complex: complex != 0,
        floating: floating != 0,
    }
}
