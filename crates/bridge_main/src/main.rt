// Performs one long history of operations twice, on a call by value and on a call that is lent, and compares call, outcome and slot buffer after
// each operation. The history is drawn from a fixed seed: all descriptions, late and repeated marks, stack offsets up to the limit and
// above it, and every refusal, which the line that is printed counts.
#![tactic(auto)]

ghost use Rattle.std.specs.Prelude.{◌≡◌};
ghost use Rattle.bridge_main.specs.Lending.{ReturnsAtMuts};
ghost use Rattle.classify.specs.Answers.{variadic_answer};
ghost use Rattle.bridge.specs.Lent.{LentReturns, LentPasses, LentPassesVariadic};

use bridge::What;
use classify::{Answer, Call, Outcome};
use shape::{Arg, Scalar, Shape};
use spend::Left;
use std::{array, fmt, io};

const OPERATIONS: usize = 60000;

const SEED: u64 = 88172645463325252;

// The first number that is no kind; a size and an alignment that are larger than any that is taken.
const NO_KIND: u64 = shape::QUAD + 1;

const TOO_LARGE: u64 = checks::MOST_OFFSET * 2;

const TOO_ALIGNED: u64 = checks::MOST_ALIGN * 2;

// A call of any numbers may have the two behind the last description.
const PAST_THE_LAST: u64 = abis::DESCRIPTIONS + 2;

// How many words pieces have at most.
const WORDS: usize = 32;

fn main(rt: HostRuntime) -> io::Result<()> {
    let mut tally = Tally {
        refused: [0; 10],
        ways: [0; 5],
    };
    let done = agreed(&mut tally);
    let how = if done < OPERATIONS {
        "and the next one differs"
    } else {
        "by value and lent"
    };
    println!(rt; "{done} operations agree, {how}{tally}")
}

// How many operations agree before one doesn't.
fn agreed(tally: &mut Tally) -> usize {
    let mut call = Call::fresh(0).next;
    for (done, drawn) in History(SEED).take(OPERATIONS).enumerate() {
        let Some(answer) = one(call, drawn) else {
            return done;
        };
        tally.count(answer.outcome);
        call = answer.next;
    }
    OPERATIONS
}

// One operation in both forms; what it left, where they agree. The slot buffers hold a number of the history first, so that a word that one
// form alone writes shows.
fn one(before: Call, drawn: Drawn) -> Option<Answer> {
    let call = renewed(before, drawn);
    let operation = Operation::drawn(drawn.a);
    let what = what_of(drawn);
    let words: [u64; WORDS] = array::from_fn(|i| word(i as u64, drawn.b, drawn.c));
    let words = &words[..words_of(drawn.c).min(WORDS)];
    let room = room_of(drawn.c).min(slots::MOST_WORDS);
    let mut first = [drawn.a; slots::MOST_WORDS];
    let mut second = first;
    let by_value = pass(operation, call, arg_of(what), words, &mut first[..room]);
    let lent = lend(operation, call, what, words, &mut second[..room]);
    if by_value == lent && first == second {
        Some(lent)
    } else {
        None
    }
}

// ---- the tally: how many operations had each refusal and, where there was none, each way

#[derive(Drop)]
struct Tally {
    refused: [u64; 10],
    ways: [u64; 5],
}

impl Tally {
    // A refusal or a way that has no place is counted nowhere: then the line's numbers don't add up to all operations.
    fn count(&mut self, outcome: Outcome) {
        if outcome.refusal == shape::ACCEPTED {
            count_at(&mut self.ways, outcome.way);
        } else {
            count_at(&mut self.refused, outcome.refusal);
        }
    }
}

fn count_at(counts: &mut [u64], place: u64) {
    if let Some(n) = counts.get_mut(place as usize) {
        *n = n.saturating_add(1);
    }
}

impl fmt::Display for Tally {
    fn fmt<W: fmt::Write>(&self, f: &mut fmt::Formatter<W>) -> fmt::Result {
        let refused = &self.refused[..];
        let one_to_seven = Each(&refused[1..8]);
        let nine = refused[9];
        let ways = Each(&self.ways);
        write!(
            f,
            "; refused with 1 to 7 and 9:{one_to_seven} {nine}; ways 0 to 4:{ways}"
        )
    }
}

// Numbers, each behind a space.
#[derive(Clone, Copy)]
struct Each<'a>(&'a [u64]);

impl fmt::Display for Each<'_> {
    fn fmt<W: fmt::Write>(&self, f: &mut fmt::Formatter<W>) -> fmt::Result {
        for n in self.0 {
            write!(f, " {n}")?;
        }
        Ok(())
    }
}

// ---- the history

// The numbers that one operation is drawn from.
#[derive(Clone, Copy)]
struct Drawn {
    a: u64,
    b: u64,
    c: u64,
}

// From a seed, three numbers a turn of the generator, xorshift of 64 bits.
#[derive(Clone, Copy)]
struct History(u64);

impl Iterator for History {
    type Item = Drawn;

    fn next(&mut self) -> Option<Drawn> {
        let a = after(self.0);
        let b = after(a);
        let c = after(b);
        self.0 = c;
        Some(Drawn { a, b, c })
    }
}

fn after(seed: u64) -> u64 {
    let a = seed ^ (seed << 13);
    let b = a ^ (a >> 7);
    b ^ (b << 17)
}

#[derive(Clone, Copy, PartialEq, Eq)]
enum Operation {
    Variadic,
    Returns,
    Argument,
    VariadicArgument,
}

impl Operation {
    fn drawn(a: u64) -> Operation {
        match a % 16 {
            0 => Operation::Variadic,
            1..=4 => Operation::Returns,
            5..=10 => Operation::Argument,
            _ => Operation::VariadicArgument,
        }
    }
}

// The call that an operation is performed on: the one before left it, or a fresh one, or now and then one of any numbers, or what the one before
// left, but at another stack offset.
fn renewed(call: Call, drawn: Drawn) -> Call {
    let Drawn { a, b, .. } = drawn;
    if (a >> 8) % 16 == 0 {
        return Call::fresh((b >> 9) % abis::DESCRIPTIONS).next;
    }
    if (a >> 20) % 128 == 0 {
        return Call {
            abi: b % PAST_THE_LAST,
            left: Left {
                integer: (b >> 8) % 12,
                float: (b >> 16) % 12,
                integers_only: (b >> 24) % 2,
            },
            stack: stack_of(b >> 42),
        };
    }
    if (a >> 27) % 64 == 0 {
        return Call {
            stack: stack_of(b >> 42),
            ..call
        };
    }
    call
}

// Mostly a small offset; else one near the limit, below it or above it.
fn stack_of(k: u64) -> u64 {
    let small = (k >> 2) % 64;
    if k % 4 == 0 {
        stack_place::MOST_STACK - 48 + small
    } else {
        small
    }
}

fn what_of(drawn: Drawn) -> What {
    let Drawn { b, c, .. } = drawn;
    let form = form_of(b % 16);
    What {
        form,
        kind: kind_of((b >> 4) % 64),
        size: size_of(form, b, c),
        align: align_of(c),
        complex: flag((c >> 24) % 8),
        floating: flag((c >> 27) % 8),
    }
}

fn form_of(k: u64) -> u64 {
    match k {
        0 => shape::FORM_VOID,
        1..=4 => shape::FORM_SCALAR,
        5..=14 => shape::FORM_AGGREGATE,
        _ => k,
    }
}

// Mostly an integer, a Single or a Double; now and then any other, or the first number that is no kind.
fn kind_of(k: u64) -> u64 {
    if k <= NO_KIND { k } else { k % 3 }
}

fn size_of(form: u64, b: u64, c: u64) -> u64 {
    if form == shape::FORM_SCALAR {
        return scalar_size((b >> 10) % 64);
    }
    match (c >> 6) % 32 {
        0 => TOO_LARGE,
        1..=5 => (c >> 12) % 70,
        _ => spread((c >> 2) % 6, c),
    }
}

// 1, 2, 4, 8 or 16; now and then 3, 64 or 65.
fn scalar_size(k: u64) -> u64 {
    match k {
        0..=59 => 1 << (k / 12),
        60 | 61 => 3,
        _ => k % 64 + 2,
    }
}

fn align_of(c: u64) -> u64 {
    match (c >> 18) % 64 {
        0 => TOO_ALIGNED,
        1..=4 => 1,
        _ => spread(1, c),
    }
}

fn flag(k: u64) -> u64 {
    if k < 3 { k } else { 0 }
}

// So many times the width of a piece, which is 4, 8 or 16.
fn spread(n: u64, c: u64) -> u64 {
    n << (2 + c % 3)
}

// How many words of pieces are read: whole pieces but for now and then.
fn words_of(c: u64) -> usize {
    let whole = ((c >> 2) % 6) << 2;
    let n = if (c >> 50) % 64 == 0 {
        whole | 1
    } else {
        whole
    };
    n as usize
}

// How many words the slot buffer has: mostly room for the most slots.
fn room_of(c: u64) -> usize {
    if (c >> 40) % 4 == 0 {
        (c >> 44) as usize % (slots::MOST_WORDS + 1)
    } else {
        slots::MOST_WORDS
    }
}

// A word of the pieces, which stand side by side.
fn word(i: u64, b: u64, c: u64) -> u64 {
    match i % 4 {
        0 => piece_kind(i / 4, b),
        3 => spread(i / 4, c),
        _ => spread(1, c),
    }
}

fn piece_kind(piece: u64, b: u64) -> u64 {
    if (b >> 36) % 64 == piece {
        return NO_KIND;
    }
    if (b >> 30) % 2 == 0 {
        return (b >> 31) % NO_KIND;
    }
    ((b >> 31) ^ piece) % 3
}

// ---- the value form

fn pass(operation: Operation, call: Call, arg: Arg, words: &[u64], slots: &mut [u64]) -> Answer {
    match operation {
        Operation::Variadic => call.variadic(),
        Operation::Returns => call.returns(arg, words, slots),
        Operation::Argument => call.argument(arg, words, slots),
        Operation::VariadicArgument => call.variadic_argument(arg, words, slots),
    }
}

fn arg_of(what: What) -> Arg {
    match what.form {
        shape::FORM_VOID => Arg::Void,
        shape::FORM_SCALAR => Arg::Scalar(Scalar {
            kind: what.kind,
            size: what.size,
            align: what.align,
        }),
        shape::FORM_AGGREGATE => Arg::Aggregate(Shape {
            size: what.size,
            align: what.align,
            complex: what.complex > 0,
            floating: what.floating > 0,
        }),
        _ => Arg::Scalar(Scalar {
            kind: 255,
            size: 1,
            align: 1,
        }),
    }
}

// ---- the forms over a lent call

fn lend(operation: Operation, call: Call, what: What, words: &[u64], slots: &mut [u64]) -> Answer {
    match operation {
        Operation::Variadic => mark(call),
        Operation::Returns => returns(call, what, words, slots),
        Operation::Argument => argument(call, what, words, slots),
        Operation::VariadicArgument => variadic_argument(call, what, words, slots),
    }
}

fn mark(call: Call) -> Answer
    ensures { (result.outcome ≡ (variadic_answer call).outcome) × (result.next ≡ (variadic_answer call).next) }
{
    lent(
        call,
        &mut [],
        |call, _| bridge::barkpaddle_bridge_variadic(call),
    )
}

fn returns(call: Call, what: What, words: &[u64], slots: &mut [u64]) -> Answer
    ensures { LentReturns call what words.now slots.old result.outcome result.next slots.new }
{
    lent(
        call,
        slots,
        |call, slots| bridge::barkpaddle_bridge_returns(call, what, words, slots),
    )
}

fn argument(call: Call, what: What, words: &[u64], slots: &mut [u64]) -> Answer
    ensures { LentPasses call what words.now slots.old result.outcome result.next slots.new }
{
    lent(
        call,
        slots,
        |call, slots| bridge::barkpaddle_bridge_argument(call, what, words, slots),
    )
}

fn variadic_argument(call: Call, what: What, words: &[u64], slots: &mut [u64]) -> Answer
    ensures { LentPassesVariadic call what words.now slots.old result.outcome result.next slots.new }
{
    lent(
        call,
        slots,
        |call, slots| bridge::barkpaddle_bridge_variadic_argument(call, what, words, slots),
    )
}

// What an operation answers about a call that is lent to it, with a slot buffer, and the call that it leaves.
fn lent<F: FnOnce(&mut Call, &mut [u64]) -> Outcome>(
    call: Call,
    slots: &mut [u64],
    operation: F,
) -> Answer
    requires { F.IsAlwaysCallable operation }
    ensures { ReturnsAtMuts F.FnOnce operation call slots.old result.outcome result.next slots.new }
{
    let mut next = call;
    let outcome = operation(&mut next, slots);
    Answer { next, outcome }
}
