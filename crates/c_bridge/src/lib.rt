// A call's operations over a call that is lent (REFERENCE 14), for C: each function hands on what it is handed to the one of its name in
// bridge, and states its clauses again (docs/DECISIONS.md, "A crate for each operation").
#![tactic(auto)]

ghost use Rattle.std.specs.Prelude.{◌≡◌};
ghost use Rattle.classify.specs.Answers.{variadic_answer};
ghost use Rattle.bridge.specs.Lent.{LentReturns, LentPasses, LentPassesVariadic};

use bridge::What;
use classify::{Call, Outcome};

// The same call, to a function whose parameters end in dots.
#[unsafe(no_mangle)]
pub extern "C" fn barkpaddle_bridge_variadic(call: &mut Call) -> Outcome
    ensures { (result ≡ (variadic_answer call.old).outcome) × (call.new ≡ (variadic_answer call.old).next) }
{
    bridge::barkpaddle_bridge_variadic(call)
}

// How the return value comes back.
#[unsafe(no_mangle)]
pub extern "C" fn barkpaddle_bridge_returns(
    call: &mut Call,
    what: What,
    words: &[u64],
    slots: &mut [u64],
) -> Outcome
    ensures { LentReturns call.old what words.now slots.old result call.new slots.new }
{
    bridge::barkpaddle_bridge_returns(call, what, words, slots)
}

// How the next fixed argument travels.
#[unsafe(no_mangle)]
pub extern "C" fn barkpaddle_bridge_argument(
    call: &mut Call,
    what: What,
    words: &[u64],
    slots: &mut [u64],
) -> Outcome
    ensures { LentPasses call.old what words.now slots.old result call.new slots.new }
{
    bridge::barkpaddle_bridge_argument(call, what, words, slots)
}

// How the next argument after the dots travels.
#[unsafe(no_mangle)]
pub extern "C" fn barkpaddle_bridge_variadic_argument(
    call: &mut Call,
    what: What,
    words: &[u64],
    slots: &mut [u64],
) -> Outcome
    ensures { LentPassesVariadic call.old what words.now slots.old result call.new slots.new }
{
    bridge::barkpaddle_bridge_variadic_argument(call, what, words, slots)
}
