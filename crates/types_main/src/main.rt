// Reads a sheet of types from standard input and prints a line for each case: `refused` and the refusal, or the type's size, its alignment and its
// pieces. A case is three lengths in words, of its types, of its members and of a buffer for the pieces, then the words of the types, then
// those of the members. The oracle's answers to the same types are compared with these.
#![tactic(auto)]

ghost use Rattle.std.specs.Prelude.{◌≤◌, length};

use std::io;
use std::io::{Cursor, ErrorKind, Read, Write};
use words::WORD;

// No length of a case is longer.
const MOST_WORDS: usize = 4128;

// No case's line has more bytes, and no list.
const MOST_TEXT: usize = 65536;

// A case's lists, and the room for its pieces.
#[derive(Drop)]
struct Case<'a> {
    types: &'a [u64],
    members: &'a [u64],
    room: &'a mut [u64],
}

// What ends a run before its sheet does.
#[derive(Debug, Drop)]
enum Failure {
    CutShort,
    TooMany,
    Io(io::Error),
}

impl From<io::Error> for Failure {
    fn from(error: io::Error) -> Failure {
        if error.kind() == ErrorKind::UnexpectedEof {
            Failure::CutShort
        } else {
            Failure::Io(error)
        }
    }
}

fn main(rt: HostRuntime) -> io::Result<()> {
    let mut out = io::writer(&rt);
    match answer_all(&mut rt.stdin(), &mut out) {
        Ok(()) => Ok(()),
        Err(Failure::CutShort) => out.write_all(b"cut short\n"),
        Err(Failure::TooMany) => out.write_all(b"too many\n"),
        Err(Failure::Io(error)) => Err(error),
    }
}

// The array of the line serves for the bytes of a list too, before there is a line.
// Nothing is read ahead, and each line leaves whole before the next case is read: whoever sends the cases may wait for it.
// A proved loop has to end, and nothing says that the input does. So the turns are counted up to a number that no run comes to.
fn answer_all(input: &mut impl Read, out: &mut impl Write) -> Result<(), Failure> {
    let mut type_words = [0; MOST_WORDS];
    let mut member_words = [0; MOST_WORDS];
    let mut piece_words = [0; MOST_WORDS];
    let mut line = Cursor::new([0; MOST_TEXT]);
    for _ in 0..u64::MAX {
        let Some(lengths) = read_lengths(input)? else {
            break;
        };
        if lengths.iter().any(|length| *length > MOST_WORDS as u64) {
            return Err(Failure::TooMany);
        }
        let [types, members, room] = lengths;
        let case = Case {
            types: read_words(input, line.get_mut(), &mut type_words[..types as usize])?,
            members: read_words(input, line.get_mut(), &mut member_words[..members as usize])?,
            room: &mut piece_words[..room as usize],
        };
        line.set_position(0);
        answer(case, &mut line)?;
        // `min` is for the proof alone: no clause of Cursor says that its place stays within the array.
        let length = MOST_TEXT.min(line.position() as usize);
        out.write_all(&line.get_ref()[..length])?;
    }
    Ok(())
}

// The three lengths, or none where the input ends before a case begins.
fn read_lengths(input: &mut impl Read) -> io::Result<Option<[u64; 3]>> {
    let mut bytes = [0; 3 * WORD];
    let mut lengths = [0; 3];
    let got = input.read(&mut bytes)?;
    if got == 0 {
        return Ok(None);
    }
    input.read_exact(&mut bytes[got..])?;
    words::unpack(&bytes, &mut lengths);
    Ok(Some(lengths))
}

fn read_words<'a>(
    input: &mut impl Read,
    space: &mut [u8; MOST_TEXT],
    words: &'a mut [u64],
) -> io::Result<&'a [u64]>
    requires { length words.old ≤ MOST_WORDS }
{
    let bytes = &mut space[..words.len() * WORD];
    input.read_exact(bytes)?;
    words::unpack(bytes, words);
    Ok(words)
}

fn answer(case: Case<'_>, out: &mut impl Write) -> io::Result<()> {
    let Case {
        types,
        members,
        room,
    } = case;
    let answer = flatten::flatten(types, members, room);
    if answer.refusal != shape::ACCEPTED {
        return writeln!(out, "refused {}", answer.refusal);
    }
    write!(out, "size {} align {} pieces", answer.size, answer.align)?;
    for p in shape::each_piece(room).take(answer.pieces as usize) {
        write!(out, " {}:{}:{}:{}", p.kind, p.size, p.align, p.offset)?;
    }
    writeln!(out)
}
