// Reads shapes from standard input, as a sheet has them, and prints what each test that looks inside finds in each, a line for each test:
// `nothing`, or how many slots and then the slots. Three lines more say how it is laid out: its alignment in memory on each row, the record
// that its pieces make, and the pieces that their scalars make. The answers of the original to the same shapes are compared with these.
#![tactic(auto)]

use arrayvec::ArrayString;
use classify::Call;
use shape::{PIECE, SCALAR, Shape};
use slots::{Found, SLOT};
use std::fmt::Write as _;
use std::io::{ErrorKind, Read, Write};
use std::{fmt, io};
use words::WORD;

// Words of a record, and the most pieces that a shape may have here.
const RECORD: usize = 6;

const MOST_HELD: usize = 64;

// The lines of a shape. They have no more bytes together.
type Text = ArrayString<16384>;

// A shape, and its pieces as words.
#[derive(Clone, Copy)]
struct Asked<'a> {
    shape: Shape,
    pieces: &'a [u64],
}

// What ends a run: the input's end, also where a shape isn't whole yet, a shape of too many pieces, or an error.
#[derive(Debug, Drop)]
enum Stop {
    Ended,
    TooMany,
    Failed(io::Error),
}

impl From<io::Error> for Stop {
    fn from(error: io::Error) -> Stop {
        if error.kind() == ErrorKind::UnexpectedEof {
            Stop::Ended
        } else {
            Stop::Failed(error)
        }
    }
}

impl From<fmt::Error> for Stop {
    fn from(_: fmt::Error) -> Stop {
        Stop::Failed(io::Error::from(ErrorKind::WriteZero))
    }
}

fn main(rt: HostRuntime) -> io::Result<()> {
    let mut out = io::writer(&rt);
    match print_all(&mut rt.stdin(), &mut out) {
        Ok(()) | Err(Stop::Ended) => Ok(()),
        Err(Stop::TooMany) => out.write_all(b"too many\n"),
        Err(Stop::Failed(error)) => Err(error),
    }
}

// Nothing is read ahead, and a shape's lines leave in one write before the next shape is read: whoever sends the shapes may wait for them.
// A proved loop has to end, and nothing says that the input does. So the turns are counted up to a number that no run comes to.
fn print_all(input: &mut impl Read, out: &mut impl Write) -> Result<(), Stop> {
    let mut space = [0; MOST_HELD * PIECE];
    let mut text = Text::new();
    for _ in 0..u64::MAX {
        let Asked { shape, pieces } = read_shape(input, &mut space)?;
        text.clear();
        print(&mut text, shape, pieces)?;
        out.write_all(text.as_str().as_bytes())?;
    }
    Ok(())
}

// The pieces go to the front of the space.
fn read_shape<'a>(
    input: &mut impl Read,
    space: &'a mut [u64; MOST_HELD * PIECE],
) -> Result<Asked<'a>, Stop> {
    let mut head = [0; RECORD * WORD];
    input.read_exact(&mut head)?;
    let [_, _, size, align, marks, count] = record_of(&head);
    if count > MOST_HELD as u64 {
        return Err(Stop::TooMany);
    }
    let count = count as usize;
    let mut records = [[0; RECORD * WORD]; MOST_HELD];
    input.read_exact(records[..count].as_flattened_mut())?;
    let (pieces, _) = space.as_chunks_mut::<PIECE>();
    for (piece, record) in pieces.iter_mut().zip(&records[..count]) {
        let [_, kind, size, align, offset, _] = record_of(record);
        *piece = [kind, size, align, offset];
    }
    let shape = Shape {
        size,
        align,
        complex: marks % 2 == 1,
        floating: marks / 2 % 2 == 1,
    };
    let pieces = &space[..count * PIECE];
    Ok(Asked { shape, pieces })
}

fn record_of(bytes: &[u8; RECORD * WORD]) -> [u64; RECORD] {
    let mut record = [0; RECORD];
    words::unpack(bytes, &mut record);
    record
}

fn print(out: &mut Text, shape: Shape, pieces: &[u64]) -> fmt::Result {
    found_in_pieces(out, shape, pieces)?;
    found_in_eightbytes(out, shape, pieces)?;
    memory(out, shape, pieces)?;
    record(out, pieces)?;
    members(out, pieces)
}

fn found_in_pieces(out: &mut Text, shape: Shape, pieces: &[u64]) -> fmt::Result {
    let mut slots = [0; MOST_HELD * SLOT];
    slot_writing::put_pieces(pieces, &mut slots);
    let told = |found| Slots {
        found,
        slots: &slots,
    };
    for limit in 1..=8 {
        let found = told(find::homogeneous(shape, pieces, limit));
        writeln!(out, "homogeneous {limit} {found}")?;
    }
    for (integer, float) in [(8, 16), (8, 8), (4, 8)] {
        let found = told(find::float_pair(pieces, integer, float));
        writeln!(out, "float_pair {integer} {float} {found}")?;
    }
    writeln!(out, "x87_stack {}", told(find::x87_stack(shape, pieces)))?;
    writeln!(out, "lone_float {}", told(find::lone_float(pieces)))?;
    writeln!(out, "floating_mode {}", told(find::floating_mode(shape)))?;
    writeln!(
        out,
        "complex_float {}",
        told(find::complex_float(shape, pieces))
    )
}

fn found_in_eightbytes(out: &mut Text, shape: Shape, pieces: &[u64]) -> fmt::Result {
    for limit in [8, 16, 24, 32, 64] {
        let mut slots = [0; slots::MOST_WORDS];
        let answer = eightbytes::eightbytes(shape, pieces, limit);
        slot_writing::put_eightbytes(answer.classes, shape.size, &mut slots);
        let found = Slots {
            found: answer.found,
            slots: &slots,
        };
        writeln!(out, "eightbytes {limit} {found}")?;
    }
    Ok(())
}

// What a test found: nothing, or so many of the slots.
#[derive(Clone, Copy)]
struct Slots<'a> {
    found: Option<Found>,
    slots: &'a [u64],
}

impl fmt::Display for Slots<'_> {
    fn fmt<W: fmt::Write>(&self, f: &mut fmt::Formatter<W>) -> fmt::Result {
        let Some(found) = self.found else {
            return f.write_str("nothing");
        };
        let count = found.count;
        write!(f, "{count}")?;
        let (slots, _) = self.slots.as_chunks::<SLOT>();
        for [kind, offset, size] in slots.iter().take(count as usize) {
            write!(f, " {kind}:{offset}:{size}")?;
        }
        Ok(())
    }
}

// The alignment in the argument area, on each of the rows. A fresh call is never refused, so a refusal is the shape's and every row's: it is said
// once.
fn memory(out: &mut Text, shape: Shape, pieces: &[u64]) -> fmt::Result {
    write!(out, "memory")?;
    for row in 0..abis::DESCRIPTIONS {
        match Call::fresh(row).next.in_memory(shape, pieces) {
            Ok(align) => write!(out, " {align}")?,
            Err(refusal) => {
                write!(out, " refused {}", refusal.number())?;
                break;
            }
        }
    }
    writeln!(out)
}

// The record that the pieces make.
fn record(out: &mut Text, pieces: &[u64]) -> fmt::Result {
    match layouts::record(pieces) {
        Ok(made) => writeln!(
            out,
            "record {} {} {}",
            made.size, made.align, made.floating as u8
        ),
        Err(refusal) => writeln!(out, "record refused {}", refusal.number()),
    }
}

// The pieces that their scalars make, as the members of a record.
fn members(out: &mut Text, pieces: &[u64]) -> fmt::Result {
    let mut space = [[0; SCALAR]; MOST_HELD];
    for (member, p) in space.iter_mut().zip(shape::each_piece(pieces)) {
        *member = [p.kind, p.size, p.align];
    }
    let count = (pieces.len() / PIECE).min(MOST_HELD);
    let mut made = [0; MOST_HELD * PIECE];
    match layouts::pieces(space[..count].as_flattened(), &mut made) {
        Ok(count) => {
            write!(out, "pieces")?;
            for p in shape::each_piece(&made).take(count as usize) {
                write!(out, " {}:{}:{}:{}", p.kind, p.size, p.align, p.offset)?;
            }
            writeln!(out)
        }
        Err(refusal) => writeln!(out, "pieces refused {}", refusal.number()),
    }
}
