// A sheet, record by record (docs/REFERENCE.md, 11): records of 48 bytes in, a line for each operation out. The crate sheet_records has what
// comes of a record, sheet_perform performs an operation, and sheet_lines prints it; here records follow one another. What stands between two
// records is a small value, `sheet_perform::State`; the pieces of an aggregate that is being read stand in a lent buffer.
#![tactic(auto)]

ghost use Rattle.std.specs.Prelude.{◌≡◌, ◌+◌, ◌≤◌, length};
ghost use Rattle.text.specs.Text.{Put};
ghost use Rattle.sheet_lines.specs.Printing.{longest};
ghost use Rattle.sheet.specs.Sheet.{stop_text, CarriedOut, Stepped, Taken, Finished};

use sheet_lines::{has_room, put_line};
use sheet_perform::State;
use sheet_records::{Act, Event, Operation, RECORD, read};

// Words that hold the most pieces of an aggregate. Those that hold the most slots of an answer are `slots::MOST_WORDS`.
pub const PIECES: usize = checks::MOST_PIECES * shape::PIECE;

// The next state, and where the text ends now.
#[derive(Clone, Copy)]
pub struct Step {
    pub next: State,
    pub at: usize,
}

// The state behind some records, how many bytes they had, and where their text ends.
#[derive(Clone, Copy)]
pub struct Steps {
    pub next: State,
    pub used: usize,
    pub at: usize,
}

// Takes the bytes of one record and writes the line that comes of it, if one does, from a place of the text on. A record of fewer bytes is
// a short one. Nothing is done where the longest line has no room.
// kept: three lent buffers as parameters, here and below. Behind a struct of references a call that is lent two of them has no proof: the borrow
// checker doesn't cover it.
pub fn take_record(
    state: State,
    bytes: &[u8],
    pieces: &mut [u64],
    slots: &mut [u64],
    out: &mut [u8],
    at: usize,
) -> Step
    ensures { Stepped state bytes.now pieces.old slots.old out.old at result pieces.new slots.new out.new }
{
    if !has_room(out.len(), at) {
        return Step { next: state, at };
    }
    let reading = read(state.reader, bytes, pieces);
    let next = State {
        reader: reading.next,
        ..state
    };
    match reading.event {
        Event::More => Step { next, at },
        Event::Stop => Step {
            next,
            at: put_stop(out, at),
        },
        Event::Ready(operation) => carry_out(next, operation, pieces, slots, out, at),
    }
}

// Takes the whole records at the front of the input, one after the other, and writes their lines from the front of the text on, as long as
// the longest line has room.
pub fn take_records(
    first: State,
    input: &[u8],
    pieces: &mut [u64],
    slots: &mut [u64],
    out: &mut [u8],
) -> Steps
    ensures { Taken first input.now pieces.old slots.old out.old result pieces.new slots.new out.new }
{
    let mut steps = Steps {
        next: first,
        used: 0,
        at: 0,
    };
    for record in input.chunks_exact(RECORD) {
        if !has_room(out.len(), steps.at) {
            return steps;
        }
        let step = take_record(steps.next, record, pieces, slots, out, steps.at);
        steps = Steps {
            next: step.next,
            used: steps.used + RECORD,
            at: step.at,
        };
    }
    steps
}

// The end of the sheet behind its last whole record: a piece that is still due is missing.
pub fn finish(state: State, out: &mut [u8], at: usize) -> Step
    ensures { Finished state out.old at result out.new }
{
    if !has_room(out.len(), at) {
        return Step { next: state, at };
    }
    let reader = state.reader;
    if reader.stopped | (reader.due.pieces == 0) {
        return Step { next: state, at };
    }
    Step {
        next: State {
            reader: reader.stop(),
            ..state
        },
        at: put_stop(out, at),
    }
}

// Performs an operation and prints its line.
fn carry_out(
    state: State,
    operation: Operation,
    pieces: &[u64],
    slots: &mut [u64],
    out: &mut [u8],
    at: usize,
) -> Step
    requires { at + longest ≤ length out.old }
    ensures { CarriedOut state operation pieces.now slots.old out.old at result slots.new out.new }
{
    let performed = state.perform(operation, pieces, slots);
    let to = put_line(
        Act::from(operation),
        state.call.stack,
        performed.answer,
        slots,
        out,
        at,
    );
    Step {
        next: performed.next,
        at: to,
    }
}

fn put_stop(out: &mut [u8], at: usize) -> usize
    requires { at + longest ≤ length out.old }
    ensures { Put out.old at stop_text result out.new }
{
    text::append(out, at, b"stop\n")
}
