// Prints every lookup over the whole of its small domain, a line each: first for the known codes, then, behind the word `unknown`, wherever
// a code isn't known. `none` stands where there is no answer, and `-` for the empty name.
#![tactic(auto)]

use arrayvec::ArrayString;
use std::fmt::Write as _;
use std::io::{ErrorKind, Write};
use std::{array, fmt, io, str};

// Architectures 0 to 4 and systems 0 to 3 are known. Each has one code more here, and every target comes without MSVC and with it.
const UNKNOWN_ARCHITECTURE: u64 = 5;

const UNKNOWN_SYSTEM: u64 = 4;

const SYSTEMS: u64 = UNKNOWN_SYSTEM + 1;

const TARGETS: usize = (UNKNOWN_ARCHITECTURE as usize + 1) * SYSTEMS as usize * 2;

// All known conventions, and two more.
const CONVENTIONS: [u64; 15] = [0, 1, 2, 3, 4, 5, 6, 7, 256, 257, 258, 259, 260, 511, 512];

const UNKNOWN_CONVENTIONS: [u64; 2] = [7, 512];

// Each attribute's name, then with its first letter in the other case, one byte short and one byte long; behind them a name that is no
// attribute's alone, and the empty one.
const NAMES: [[&str; 4]; 7] = [
    ["ms_abi", "Ms_abi", "ms_ab", "ms_abix"],
    ["sysv_abi", "Sysv_abi", "sysv_ab", "sysv_abix"],
    [
        "no_callee_saved_registers",
        "No_callee_saved_registers",
        "no_callee_saved_register",
        "no_callee_saved_registersx",
    ],
    [
        "preserve_none",
        "Preserve_none",
        "preserve_non",
        "preserve_nonex",
    ],
    ["stdcall", "Stdcall", "stdcal", "stdcallx"],
    ["fastcall", "Fastcall", "fastcal", "fastcallx"],
    ["cdecl", "Cdecl", "cdec", "cdeclx"],
];

const OTHER_NAMES: [&str; 2] = ["regparm", ""];

// No attribute's name has more bytes.
const LONGEST: usize = 32;

// The lines are collected, and leave once there are so many bytes. A line is far shorter than what that leaves free.
type Text = ArrayString<65536>;

const ENOUGH: usize = 65000;

fn main(rt: HostRuntime) -> io::Result<()> {
    let mut sheet = Sheet {
        text: Text::new(),
        out: io::writer(&rt),
    };
    sheet.every_line(true)?;
    sheet.every_line(false)?;
    sheet.flush()
}

// What one lookup is asked: what a target follows, what a convention follows on it, and which convention a name asks for there; the name
// that asks for a convention, and whether its callee pops.
#[derive(Clone, Copy)]
enum Line {
    Target(Target),
    Convention(Target, u64),
    Asked(Target, &'static str),
    Attribute(u64),
    Pops(u64),
}

#[derive(Clone, Copy)]
struct Target {
    architecture: u64,
    system: u64,
    msvc: bool,
}

#[derive(Drop)]
struct Sheet<W> {
    text: Text,
    out: W,
}

impl<W: Write> Sheet<W> {
    // The lines whose codes are all known, or those of which one isn't.
    fn every_line(&mut self, known: bool) -> io::Result<()> {
        let targets = every_target();
        for target in targets {
            self.line(known, Line::Target(target))?;
        }
        for target in targets {
            for convention in CONVENTIONS {
                self.line(known, Line::Convention(target, convention))?;
            }
        }
        for target in targets {
            for name in NAMES.iter().flatten().chain(&OTHER_NAMES) {
                self.line(known, Line::Asked(target, name))?;
            }
        }
        for convention in CONVENTIONS {
            self.line(known, Line::Attribute(convention))?;
        }
        for convention in CONVENTIONS {
            self.line(known, Line::Pops(convention))?;
        }
        Ok(())
    }

    fn line(&mut self, known: bool, line: Line) -> io::Result<()> {
        if line.is_known() != known {
            return Ok(());
        }
        let front = if known { "" } else { "unknown " };
        if writeln!(self.text, "{front}{line}").is_err() {
            return Err(io::Error::from(ErrorKind::WriteZero));
        }
        if self.text.len() < ENOUGH {
            return Ok(());
        }
        self.flush()
    }

    fn flush(&mut self) -> io::Result<()> {
        self.out.write_all(self.text.as_str().as_bytes())?;
        self.text.clear();
        Ok(())
    }
}

// The architecture outermost, then the system, then MSVC.
fn every_target() -> [Target; TARGETS] {
    array::from_fn(|i| Target {
        architecture: i as u64 / 2 / SYSTEMS,
        system: i as u64 / 2 % SYSTEMS,
        msvc: i % 2 == 1,
    })
}

impl Line {
    // Whether its codes are all known.
    fn is_known(&self) -> bool {
        match *self {
            Line::Target(target) | Line::Asked(target, _) => target.is_known(),
            Line::Convention(target, convention) => target.is_known() && is_known(convention),
            Line::Attribute(convention) | Line::Pops(convention) => is_known(convention),
        }
    }
}

impl Target {
    fn is_known(self) -> bool {
        self.architecture < UNKNOWN_ARCHITECTURE && self.system < UNKNOWN_SYSTEM
    }

    fn followed(self) -> Option<u64> {
        targets::for_target(self.architecture, self.system, self.msvc)
    }

    fn followed_by(self, convention: u64) -> Option<u64> {
        targets::for_convention(self.architecture, self.system, self.msvc, convention)
    }

    fn asked_by(self, name: &str) -> Option<u64> {
        attributes::asked(self.architecture, self.system, self.msvc, name.as_bytes())
    }
}

fn is_known(convention: u64) -> bool {
    !UNKNOWN_CONVENTIONS.contains(&convention)
}

impl fmt::Display for Line {
    fn fmt<W: fmt::Write>(&self, f: &mut fmt::Formatter<W>) -> fmt::Result {
        match *self {
            Line::Target(target) => {
                let followed = target.followed();
                write!(f, "target {target} {}", OrNone(followed))
            }
            Line::Convention(target, convention) => {
                let followed = target.followed_by(convention);
                write!(f, "convention {target} {convention} {}", OrNone(followed))
            }
            Line::Asked(target, name) => {
                let shown = if name.is_empty() { "-" } else { name };
                let asked = target.asked_by(name);
                write!(f, "asked {target} {shown} {}", OrNone(asked))
            }
            Line::Attribute(convention) => {
                let mut space = [0; LONGEST];
                let name = attribute(convention, &mut space);
                write!(f, "attribute {convention} {}", OrNone(name))
            }
            Line::Pops(convention) => {
                let pops = targets::callee_pops(convention);
                write!(f, "pops {convention} {}", pops as u8)
            }
        }
    }
}

fn attribute(convention: u64, space: &mut [u8]) -> Option<&str> {
    let length = attributes::attribute(convention, space).ok()??;
    str::from_utf8(space.get(..length)?).ok()
}

impl fmt::Display for Target {
    fn fmt<W: fmt::Write>(&self, f: &mut fmt::Formatter<W>) -> fmt::Result {
        let Target {
            architecture,
            system,
            msvc,
        } = *self;
        write!(f, "{architecture} {system} {}", msvc as u8)
    }
}

// An answer, or the word for none.
#[derive(Drop)]
struct OrNone<T>(Option<T>);

impl<T: fmt::Display> fmt::Display for OrNone<T> {
    fn fmt<W: fmt::Write>(&self, f: &mut fmt::Formatter<W>) -> fmt::Result {
        match &self.0 {
            Some(answer) => answer.fmt(f),
            None => f.write_str("none"),
        }
    }
}
