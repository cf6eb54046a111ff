// An operation of a sheet, performed on the open call (docs/REFERENCE.md, 11), for whoever reads a sheet: nothing is printed here. What is known
// between two records is a small value; the words of the pieces that were read stand in a lent buffer.
#![tactic(auto)]

ghost use Rattle.std.specs.Prelude.{◌≡◌, take};
ghost use Rattle.sheet_perform.specs.Performing.{started, performed, performed_slots, answer_of, slots_after};

use classify::{Answer, Call};
use sheet_records::{Operation, Reader};
use spend::Left;

// What is known between two records: the call, and what the reader knows.
#[derive(Clone, Copy)]
pub struct State {
    pub call: Call,
    pub reader: Reader,
}

// The next state, and what the operation answered.
#[derive(Clone, Copy)]
pub struct Performed {
    pub next: State,
    pub answer: Answer,
}

impl State {
    // Before the first record: no call is open and no piece is due.
    pub fn start() -> State
        ensures { result ≡ started }
    {
        State {
            call: Call {
                abi: 0,
                left: Left {
                    integer: 0,
                    float: 0,
                    integers_only: spend::NO_MARK,
                },
                stack: 0,
            },
            reader: Reader::start(),
        }
    }

    // Performs an operation that is ready. Its pieces are the words that its reader counts.
    #[tactic(auto, unfolding(crate::specs::Performing::performed, crate::specs::Performing::performed_slots))]
    pub fn perform(self, operation: Operation, pieces: &[u64], slots: &mut [u64]) -> Performed
        ensures { (result ≡ performed self operation pieces.now slots.old) × (slots.new ≡ performed_slots self operation pieces.now slots.old) }
    {
        let reader = self.reader;
        let words = words_of(reader.due.words, pieces);
        let answer = answer_to(self.call, operation, words, slots);
        Performed {
            next: State {
                call: answer.next,
                reader: reader.after(operation, answer.outcome.refusal),
            },
            answer,
        }
    }
}

#[tactic(auto, unfolding(crate::specs::Performing::answer_of, crate::specs::Performing::slots_after))]
fn answer_to(call: Call, operation: Operation, words: &[u64], slots: &mut [u64]) -> Answer
    ensures { (result ≡ answer_of call operation words.now slots.old) × (slots.new ≡ slots_after call operation words.now slots.old) }
{
    match operation {
        Operation::Fresh(abi) => Call::fresh(abi),
        Operation::Mark => call.variadic(),
        Operation::Return(arg) => call.returns(arg, words, slots),
        Operation::Argument(arg) => call.argument(arg, words, slots),
        Operation::VariadicArgument(arg) => call.variadic_argument(arg, words, slots),
    }
}

// The first so many words, or all where there are fewer.
fn words_of(n: usize, pieces: &[u64]) -> &[u64]
    ensures { result.now ≡ take n pieces.now }
{
    pieces.get(..n).unwrap_or(pieces)
}
