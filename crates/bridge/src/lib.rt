// The bridge's forms of a call's operations (docs/REFERENCE.md, 14): the call is lent and updated where it stands, and what is asked and what
// is answered are numbers. Each form over a lent call is a thin one over a value form, which does all the work.
#![tactic(auto)]

ghost use Rattle.std.specs.Prelude.{◌≡◌};
ghost use Rattle.classify.specs.Answers.{variadic_answer};
ghost use Rattle.classify.specs.declared.Answer.{Answer};
ghost use Rattle.bridge.specs.Lent.{arg_of, Performs, LentReturns, LentPasses, LentPassesVariadic};

use classify::{Answer, Call, Outcome};
use shape::{Arg, Scalar};

// What is asked about: void, a scalar of this kind, size and alignment, or an aggregate of this size and alignment, which is complex and
// has the floating mode where those aren't 0. An aggregate's pieces stand beside it, as words.
#[repr(C)]
#[derive(Clone, Copy)]
pub struct What {
    pub form: u64,
    pub kind: u64,
    pub size: u64,
    pub align: u64,
    pub complex: u64,
    pub floating: u64,
}

// A kind that no scalar has.
const NO_KIND: u64 = 5;

// ---- over a call that is lent

// The same call, to a function whose parameters end in dots.
pub fn barkpaddle_bridge_variadic(call: &mut Call) -> Outcome
    ensures { (result ≡ (variadic_answer call.old).outcome) × (call.new ≡ (variadic_answer call.old).next) }
{
    let answer = call.variadic();
    *call = answer.next;
    answer.outcome
}

// How the return value comes back.
pub fn barkpaddle_bridge_returns(
    call: &mut Call,
    what: What,
    words: &[u64],
    slots: &mut [u64],
) -> Outcome
    ensures { LentReturns call.old what words.now slots.old result call.new slots.new }
{
    lent(call, slots, |call, slots| {
        call.returns(Arg::from(what), words, slots)
    })
}

// How the next fixed argument travels.
pub fn barkpaddle_bridge_argument(
    call: &mut Call,
    what: What,
    words: &[u64],
    slots: &mut [u64],
) -> Outcome
    ensures { LentPasses call.old what words.now slots.old result call.new slots.new }
{
    lent(call, slots, |call, slots| {
        call.argument(Arg::from(what), words, slots)
    })
}

// How the next argument after the dots travels.
pub fn barkpaddle_bridge_variadic_argument(
    call: &mut Call,
    what: What,
    words: &[u64],
    slots: &mut [u64],
) -> Outcome
    ensures { LentPassesVariadic call.old what words.now slots.old result call.new slots.new }
{
    lent(call, slots, |call, slots| {
        call.variadic_argument(Arg::from(what), words, slots)
    })
}

// ---- what they share

// Performs an operation on the call that is lent, and leaves there the call that it answers.
fn lent<F: FnOnce(Call, &mut [u64]) -> Answer>(
    call: &mut Call,
    slots: &mut [u64],
    operation: F,
) -> Outcome
    requires { F.IsAlwaysCallable operation }
    ensures { (a : Answer) × Performs F.FnOnce operation call.old slots.old a slots.new × (result ≡ a.outcome) × (call.new ≡ a.next) }
{
    let answer = operation(*call, slots);
    *call = answer.next;
    answer.outcome
}

// A form that isn't known is refused as a scalar of no kind, in the order of the other refusals.
impl From<What> for Arg {
    ghost from_gives = { λ what arg. arg ≡ arg_of what };

    #[tactic(auto, unfolding(crate::specs::Lent::arg_of))]
    fn from(what: What) -> Arg {
        match what.form {
            shape::FORM_VOID => Arg::Void,
            shape::FORM_SCALAR => Arg::Scalar(Scalar {
                kind: what.kind,
                size: what.size,
                align: what.align,
            }),
            shape::FORM_AGGREGATE => Arg::Aggregate(export_numbers::shape_from(
                what.size,
                what.align,
                what.complex,
                what.floating,
            )),
            _ => Arg::Scalar(Scalar {
                kind: NO_KIND,
                size: 0,
                align: 0,
            }),
        }
    }
}
