// Reads a sheet from standard input and prints its lines. The input comes in large reads; bytes of a record that isn't whole yet wait at the
// front of the buffer for the rest of it.
#![tactic(auto)]

ghost use Rattle.std.specs.Prelude.{◌+◌, ◌≤◌, length, IfOk};

use sheet_perform::State;
use std::io::{Read, Stdin, Stdout};
use std::process::ExitCode;
use std::{fmt, io};

// The records that are held at once. Each has room for a line, so that none of them is left over.
const RECORDS: usize = 1024;

// What a turn leaves for the next: the state, and how many bytes wait.
#[derive(Clone, Copy)]
struct Turn {
    state: State,
    waiting: usize,
}

// What ends a run before its sheet does.
#[derive(Drop)]
enum Failure {
    Reading(io::Error),
    Writing(io::Error),
}

impl fmt::Display for Failure {
    fn fmt<W: fmt::Write>(&self, f: &mut fmt::Formatter<W>) -> fmt::Result {
        match self {
            Failure::Reading(why) => write!(f, "callsheet: reading: {why}"),
            Failure::Writing(why) => write!(f, "callsheet: writing: {why}"),
        }
    }
}

// Where the lines go, and the buffers of a run: the bytes that were read, the words of pieces and of slots, and the bytes of lines.
#[derive(Drop)]
struct Room {
    stdout: Stdout,
    input: [u8; RECORDS * sheet_records::RECORD],
    pieces: [u64; sheet::PIECES],
    slots: [u64; slots::MOST_WORDS],
    out: [u8; RECORDS * sheet_lines::LONGEST],
}

// A failure is said on standard error, where nothing else is said, and ends with a status that isn't 0.
fn main(rt: HostRuntime) -> ExitCode {
    let mut stdin = rt.stdin();
    let mut room = Room {
        stdout: rt.stdout(),
        input: [0; RECORDS * sheet_records::RECORD],
        pieces: [0; sheet::PIECES],
        slots: [0; slots::MOST_WORDS],
        out: [0; RECORDS * sheet_lines::LONGEST],
    };
    match run(&mut stdin, &mut room) {
        Ok(()) => ExitCode::SUCCESS,
        Err(failure) => {
            let _ = rt.eprintln(failure);
            ExitCode::FAILURE
        }
    }
}

// A proved loop has to end, and nothing says that the input does. So the turns are counted up to a number that no run comes to.
fn run(stdin: &mut Stdin, room: &mut Room) -> Result<(), Failure> {
    let mut turn = Turn {
        state: State::start(),
        waiting: 0,
    };
    for _ in 0..u64::MAX {
        let Some(next) = room.turn(stdin, turn)? else {
            break;
        };
        turn = next;
    }
    Ok(())
}

impl Room {
    // Reads once, and prints the lines of the records that are whole; none where the sheet doesn't go on.
    fn turn(&mut self, stdin: &mut Stdin, turn: Turn) -> Result<Option<Turn>, Failure> {
        let waiting = turn.waiting;
        if waiting >= self.input.len() {
            return Ok(None);
        }
        let got = read_behind(stdin, &mut self.input, waiting)?;
        if got == 0 {
            self.end(turn.state, waiting)?;
            return Ok(None);
        }
        self.take_in(turn.state, waiting + got)
    }

    // Prints the lines of the records that are whole among the first so many bytes, and moves the bytes behind them to the front.
    fn take_in(&mut self, state: State, have: usize) -> Result<Option<Turn>, Failure>
        requires { have ≤ length self.old.input }
    {
        let steps = sheet::take_records(
            state,
            &self.input[..have],
            &mut self.pieces,
            &mut self.slots,
            &mut self.out,
        );
        let went = self.write(steps.at)?;
        if !went | steps.next.reader.stopped {
            return Ok(None);
        }
        let waiting = to_front(&mut self.input, steps.used, have);
        Ok(Some(Turn {
            state: steps.next,
            waiting,
        }))
    }

    // The end of the input: bytes that wait are a short record, and a piece that is due is missing.
    fn end(&mut self, state: State, waiting: usize) -> Result<(), Failure>
        requires { waiting ≤ length self.old.input }
    {
        let rest = &self.input[..waiting];
        let step = if rest.is_empty() {
            sheet::finish(state, &mut self.out, 0)
        } else {
            sheet::take_record(
                state,
                rest,
                &mut self.pieces,
                &mut self.slots,
                &mut self.out,
                0,
            )
        };
        self.write(step.at)?;
        Ok(())
    }

    // Writes so many bytes; whether the buffer has them.
    fn write(&self, n: usize) -> Result<bool, Failure> {
        let Some(text) = self.out.get(..n) else {
            return Ok(false);
        };
        self.stdout.write_all(text).map_err(Failure::Writing)?;
        Ok(true)
    }
}

// One read into the bytes from a place on; how many came.
fn read_behind(stdin: &mut Stdin, input: &mut [u8], from: usize) -> Result<usize, Failure>
    requires { from ≤ length input.old }
    ensures { IfOk result (λ n. from + n ≤ length input.old) }
{
    stdin.read(&mut input[from..]).map_err(Failure::Reading)
}

// Moves the bytes from one place up to another to the front; how many there are.
fn to_front(input: &mut [u8], from: usize, to: usize) -> usize
    requires { to ≤ length input.old }
{
    if from < to {
        input.copy_within(from..to, 0);
    }
    to.saturating_sub(from)
}
