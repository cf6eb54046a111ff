// What the reader of a sheet knows between two records (docs/REFERENCE.md, 11): at the start, once an operation was performed, and behind a
// stop.
ghost use Rattle.std.specs.Prelude.{◌≡◌};
ghost use Rattle.sheet_records.specs.Known as spec;

use shape::{Arg, Shape};

// What is known between two records: whether a call is open, whether the sheet has stopped, and the aggregate whose pieces are due.
// kept: a stop leaves both other fields, and behind its last piece an aggregate still has its words, which whoever performs its operation takes;
// states as variants would have to hold all of this in each, and `due` where nothing is due any more.
#[derive(Clone, Copy)]
pub struct Reader {
    pub opened: bool,
    pub stopped: bool,
    pub due: Due,
}

// An aggregate that is being read: the first word of its operation, its shape, how many pieces are still due, and the words of those read.
#[derive(Clone, Copy)]
pub struct Due {
    pub first: u64,
    pub shape: Shape,
    pub pieces: u64,
    pub words: usize,
}

impl Due {
    // No piece is due.
    pub const NOTHING: Due = Due {
        first: 0,
        shape: Shape {
            size: 0,
            align: 0,
            complex: false,
            floating: false,
        },
        pieces: 0,
        words: 0,
    };
}

#[derive(Clone, Copy)]
pub enum Operation {
    Fresh(u64),
    Mark,
    Return(Arg),
    Argument(Arg),
    VariadicArgument(Arg),
}

// What an operation is: a fresh call, the mark, or one on a value.
#[derive(Clone, Copy)]
pub enum Act {
    Fresh,
    Mark,
    Value,
}

impl From<Operation> for Act {
    ghost from_gives = { λ operation act. act ≡ spec.act_of operation };

    #[tactic(auto, unfolding(crate::specs::Known::act_of))]
    fn from(operation: Operation) -> Act {
        match operation {
            Operation::Fresh(_) => Act::Fresh,
            Operation::Mark => Act::Mark,
            Operation::Return(_) | Operation::Argument(_) | Operation::VariadicArgument(_) => {
                Act::Value
            }
        }
    }
}

impl Reader {
    // Before the first record: no call is open and no piece is due.
    pub fn start() -> Reader
        ensures { result ≡ spec.started_reader }
    {
        Reader {
            opened: false,
            stopped: false,
            due: Due::NOTHING,
        }
    }

    // What is known once an operation was performed. A fresh call takes the place of the open one, and a refused one closes it. Any other
    // operation leaves the call open, refused or not.
    pub fn after(self, operation: Operation, refusal: u64) -> Reader
        ensures { result ≡ spec.reader_after self operation refusal }
    {
        Reader {
            opened: open_after(self.opened, Act::from(operation), refusal),
            ..self
        }
    }

    // Nothing is read any more.
    pub fn stop(self) -> Reader
        ensures { result ≡ spec.stopped_reader self }
    {
        Reader {
            stopped: true,
            ..self
        }
    }
}

fn open_after(opened: bool, act: Act, refusal: u64) -> bool
    ensures { result ≡ spec.open_after opened act refusal }
{
    match act {
        Act::Fresh => refusal == shape::ACCEPTED,
        Act::Mark | Act::Value => opened,
    }
}
