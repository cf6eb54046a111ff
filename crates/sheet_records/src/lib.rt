// What comes of a record of a sheet (docs/REFERENCE.md, 11): an operation that is ready, a part of one, or a stop. What the reader knows
// between two records is a small value, `Reader`; the pieces of an aggregate that is being read stand in a lent buffer.
#![tactic(auto)]

mod known;
mod records;

ghost use Rattle.std.specs.Prelude.{◌≡◌, ◌-◌, ◌<◌, length};
ghost use Rattle.sheet_records.specs.Known.{due_of};
ghost use Rattle.sheet_records.specs.Reading as spec;

pub use known::{Act, Due, Operation, Reader};
pub use records::RECORD;
use records::{Record, record_of};
use shape::{Arg, Piece, Scalar, Shape};

// First words, as far as they are told apart.
// kept: an enum between a first word and its operation would name each of the three operations on a value twice more.
const FIRST_FRESH: u64 = 0;

const FIRST_MARK: u64 = 1;

const FIRST_RETURN: u64 = 2;

const FIRST_ARGUMENT: u64 = 3;

const FIRST_VARIADIC_ARGUMENT: u64 = 4;

const FIRST_PIECE: u64 = 5;

// The largest flags of an aggregate.
const MOST_FLAGS: u64 = 3;

// Nothing that could be performed yet, an operation, or the end of all reading.
#[derive(Clone, Copy)]
pub enum Event {
    More,
    Ready(Operation),
    Stop,
}

#[derive(Clone, Copy)]
pub struct Reading {
    pub next: Reader,
    pub event: Event,
}

// Takes the bytes of one record; fewer are a short one. Nothing is read behind a stop. The pieces of an operation that is ready are the
// words that its reader counts.
#[tactic(auto, unfolding(crate::specs::Reading::read_answer, crate::specs::Reading::whole_answer, crate::specs::Reading::read_pieces))]
pub fn read(reader: Reader, bytes: &[u8], pieces: &mut [u64]) -> Reading
    ensures { (result ≡ spec.read_answer reader bytes.now (length pieces.old)) × (pieces.new ≡ spec.read_pieces reader bytes.now pieces.old) }
{
    if reader.stopped {
        return Reading {
            next: reader,
            event: Event::More,
        };
    }
    if bytes.len() < RECORD {
        return no_more(reader);
    }
    let record = record_of(bytes);
    if reader.due.pieces > 0 {
        return read_piece(reader, record, pieces);
    }
    read_head(reader, record)
}

// The record of a piece that is due; any other record there is a missing piece.
#[tactic(auto, unfolding(crate::specs::Reading::piece_answer, crate::specs::Reading::piece_put))]
fn read_piece(reader: Reader, record: Record, pieces: &mut [u64]) -> Reading
    requires { 0 < reader.due.pieces }
    ensures { (result ≡ spec.piece_answer reader «record» (length pieces.old)) × (pieces.new ≡ spec.piece_put reader «record» pieces.old) }
{
    let at = reader.due.words;
    if record.first != FIRST_PIECE {
        return no_more(reader);
    }
    let piece = Piece {
        kind: record.second,
        size: record.third,
        align: record.fourth,
        offset: record.fifth,
    };
    if !shape::put_piece(pieces, at, piece) {
        return no_more(reader);
    }
    piece_read(reader, at + shape::PIECE)
}

// One piece fewer is due. With the last one the operation is ready.
#[tactic(auto, unfolding(crate::specs::Reading::piece_read))]
fn piece_read(reader: Reader, words: usize) -> Reading
    requires { 0 < reader.due.pieces }
    ensures { result ≡ spec.piece_read reader (due_of reader.due.first reader.due.shape (reader.due.pieces - 1) words) }
{
    let due = reader.due;
    let left = due.pieces - 1;
    let next = Reader {
        due: Due {
            pieces: left,
            words,
            ..due
        },
        ..reader
    };
    let event = if left > 0 {
        Event::More
    } else {
        Event::Ready(operation_of(due.first, Arg::Aggregate(due.shape)))
    };
    Reading { next, event }
}

// A record where no piece is due. A piece is a stray one there.
#[tactic(auto, unfolding(crate::specs::Reading::head_answer))]
fn read_head(reader: Reader, record: Record) -> Reading
    ensures { result ≡ spec.head_answer reader «record» }
{
    match record.first {
        FIRST_FRESH => ready(reader, Operation::Fresh(record.second)),
        _ if !reader.opened => no_more(reader),
        FIRST_MARK => ready(reader, Operation::Mark),
        FIRST_RETURN..=FIRST_VARIADIC_ARGUMENT => read_value(reader, record),
        _ => no_more(reader),
    }
}

#[tactic(auto, unfolding(crate::specs::Reading::value_answer))]
fn read_value(reader: Reader, record: Record) -> Reading
    ensures { result ≡ spec.value_answer reader «record» }
{
    match record.second {
        shape::FORM_VOID => ready(reader, operation_of(record.first, Arg::Void)),
        shape::FORM_SCALAR => {
            let scalar = Scalar {
                kind: record.third,
                size: record.fourth,
                align: record.fifth,
            };
            ready(reader, operation_of(record.first, Arg::Scalar(scalar)))
        }
        shape::FORM_AGGREGATE
            if (record.fifth > MOST_FLAGS) | (record.sixth > checks::MOST_PIECES as u64) => {
            no_more(reader)
        }
        shape::FORM_AGGREGATE => read_aggregate(reader, record),
        _ => no_more(reader),
    }
}

// An aggregate of no pieces is ready at once.
#[tactic(auto, unfolding(crate::specs::Reading::aggregate_answer))]
fn read_aggregate(reader: Reader, record: Record) -> Reading
    ensures { result ≡ spec.aggregate_answer reader «record» }
{
    let shape = Shape {
        size: record.third,
        align: record.fourth,
        complex: record.fifth % 2 == 1,
        floating: record.fifth / 2 % 2 == 1,
    };
    if record.sixth == 0 {
        return ready(reader, operation_of(record.first, Arg::Aggregate(shape)));
    }
    let due = Due {
        first: record.first,
        shape,
        pieces: record.sixth,
        words: 0,
    };
    Reading {
        next: Reader { due, ..reader },
        event: Event::More,
    }
}

#[tactic(auto, unfolding(crate::specs::Reading::operation_of))]
fn operation_of(first: u64, arg: Arg) -> Operation
    ensures { result ≡ spec.operation_of first arg }
{
    match first {
        FIRST_RETURN => Operation::Return(arg),
        FIRST_ARGUMENT => Operation::Argument(arg),
        _ => Operation::VariadicArgument(arg),
    }
}

// An operation with no pieces.
fn ready(reader: Reader, operation: Operation) -> Reading
    ensures { result ≡ spec.ready reader operation }
{
    Reading {
        next: Reader {
            due: Due::NOTHING,
            ..reader
        },
        event: Event::Ready(operation),
    }
}

// What can't be read: the reading has ended.
fn no_more(reader: Reader) -> Reading
    ensures { result ≡ spec.stop reader }
{
    Reading {
        next: reader.stop(),
        event: Event::Stop,
    }
}
