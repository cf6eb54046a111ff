// The callee's side of a variable argument list on description 0, the psABI's: where the bytes of the next scalar stand, in the register save
// area or in the overflow area, and the offsets after it. The rules are those of docs/REFERENCE.md, 15.
#![tactic(auto)]

ghost use Rattle.std.specs.Prelude.{◌≡◌, ◌+◌, ◌≤◌, ◌<◌, length, take, drop};
ghost use Rattle.shape.specs.Arithmetic.{round_up};
ghost use Rattle.shape.specs.Refusals.{refusal_of};
ghost use Rattle.varargs.specs.Lists.{area_number as area_number·, area_of, area_told, is_own_size, unnamed_refusal, is_save_area, overflow_start, in_overflow, in_bank, located, part_of, placed, told, Inside, shown, reads_as};

use shape::{DOUBLE, INTEGER, QUAD, Refusal, SINGLE, Scalar, X87_EXTENDED};

// The save area: the integer places, 8 bytes each from 0, and behind them the float places, 16 bytes each.
const INTEGER_PLACE: u64 = 8;

const INTEGER_END: u64 = 48;

const FLOAT_PLACE: u64 = 16;

const FLOAT_START: u64 = 48;

const FLOAT_END: u64 = 176;

const SAVE_BYTES: u64 = 176;

// The next integer place and the next float place, counted from the save area's start, and the next byte of the overflow area.
#[derive(Clone, Copy)]
pub struct Offsets {
    pub integer: u64,
    pub float: u64,
    pub overflow: u64,
}

// Which of the two areas it is. Nowhere, where there is none, is 0.
#[derive(Clone, Copy)]
pub enum Area {
    Save = 1,
    Overflow = 2,
}

impl Area {
    // Its number.
    pub fn number(self) -> u64
        ensures { result ≡ area_number· (area_of self) }
    {
        self as u64
    }
}

// The number of an area, or of none.
pub fn area_number(area: Option<Area>) -> u64
    ensures { result ≡ area_number· (area_told area) }
{
    match area {
        Some(area) => area.number(),
        None => 0,
    }
}

// Where a scalar's own bytes stand, with the offsets after it.
#[derive(Clone, Copy)]
pub struct Located {
    pub area: Area,
    pub start: u64,
    pub length: u64,
    pub next: Offsets,
}

// A scalar's own bytes, with the offsets after it.
#[derive(Drop)]
pub struct Reading<'a> {
    pub part: &'a [u8],
    pub next: Offsets,
}

// The next scalar of a list: a part of whichever of the two areas holds it. The overflow area starts at an address that is a multiple of 16.
pub fn read<'a>(
    save: &'a [u8],
    overflow: &'a [u8],
    at: Offsets,
    s: Scalar,
) -> Result<Reading<'a>, Refusal>
    ensures { shown result at ≡ reads_as save.now overflow.now at s }
{
    let found = find(save, overflow, at, s)?;
    let part = part(save, overflow, found);
    Ok(Reading {
        part,
        next: found.next,
    })
}

// The bytes of what was located.
#[tactic(auto, unfolding(crate::specs::Lists::part_of))]
fn part<'a>(save: &'a [u8], overflow: &'a [u8], found: Located) -> &'a [u8]
    requires { Inside (length save.now) (length overflow.now) (placed found) }
    ensures { result.now ≡ part_of save.now overflow.now (placed found) }
{
    match found.area {
        Area::Save => bytes_at(save, found.start, found.length),
        Area::Overflow => bytes_at(overflow, found.start, found.length),
    }
}

// So many bytes of an area from a start on. In two steps: where the start and the length are added up nothing says that the sum fits.
#[tactic(auto, using(crate::proofs::Lists::counted, crate::proofs::Lists::first_left))]
fn bytes_at<'a>(area: &'a [u8], start: u64, count: u64) -> &'a [u8]
    requires { start + count ≤ length area.now }
    ensures { result.now ≡ take count (drop start area.now) }
{
    let rest = &area[start as usize..];
    &rest[..count as usize]
}

// Where the next scalar of a list stands: of the two areas only the lengths matter.
// kept: offsets and scalar as two parameters. A list keeps the one from read to read and is asked about the other, and what a struct of both would
// spare, two functions below, it would cost where it is made.
pub fn find<'a>(
    save: &'a [u8],
    overflow: &'a [u8],
    at: Offsets,
    s: Scalar,
) -> Result<Located, Refusal>
    ensures { told result at ≡ located (length save.now) (length overflow.now) at s }
{
    check_unnamed(s)?;
    if !is_save_area(save.len() as u64, at) {
        return Err(Refusal::BadArea);
    }
    match s.kind {
        INTEGER => {
            let integer = at.integer + rounded(s.size);
            let next = Offsets { integer, ..at };
            in_bank(overflow, at, s, at.integer, integer <= INTEGER_END, next)
        }
        X87_EXTENDED => in_overflow(overflow, at, s),
        _ => {
            let float = at.float + FLOAT_PLACE;
            let next = Offsets { float, ..at };
            in_bank(overflow, at, s, at.float, float <= FLOAT_END, next)
        }
    }
}

// ---- what is refused

// A list's scalars are of their own sizes and aligned to them, so that the limits of other scalars are kept.
#[tactic(auto, using(crate::proofs::Lists::scalar_laws))]
fn check_unnamed(s: Scalar) -> Result<(), Refusal>
    ensures { refusal_of result ≡ unnamed_refusal s }
{
    if s.kind > QUAD {
        return Err(Refusal::BadKind);
    }
    if !is_own_size(s.kind, s.size) {
        return Err(Refusal::BadSize);
    }
    if s.align != s.size {
        return Err(Refusal::BadAlign);
    }
    Ok(())
}

#[tactic(auto, unfolding(crate::specs::Lists::is_own_size))]
fn is_own_size(kind: u64, size: u64) -> bool
    ensures { result ≡ is_own_size kind size }
{
    match kind {
        INTEGER => matches!(size, 1 | 2 | 4 | 8 | 16),
        SINGLE => size == 4,
        DOUBLE => size == 8,
        _ => size == 16,
    }
}

fn is_save_area(length: u64, at: Offsets) -> bool
    ensures { result ≡ is_save_area length at }
{
    (length == SAVE_BYTES)
        & ((at.integer <= INTEGER_END) & (at.integer % INTEGER_PLACE == 0))
        & (((FLOAT_START <= at.float) & (at.float <= FLOAT_END)) & (at.float % FLOAT_PLACE == 0))
}

// ---- where a scalar stands

// At a start in a bank of the save area, with the offsets behind it, where the bank has room for it; in the overflow area where it hasn't.
fn in_bank(
    overflow: &[u8],
    at: Offsets,
    s: Scalar,
    start: u64,
    room: bool,
    next: Offsets,
) -> Result<Located, Refusal>
    requires { (1 ≤ s.size) × (s.size ≤ 16) }
    ensures { told result at ≡ in_bank (length overflow.now) at s start room next }
{
    if !room {
        return in_overflow(overflow, at, s);
    }
    Ok(Located {
        area: Area::Save,
        start,
        length: s.size,
        next,
    })
}

fn in_overflow(overflow: &[u8], at: Offsets, s: Scalar) -> Result<Located, Refusal>
    requires { (1 ≤ s.size) × (s.size ≤ 16) }
    ensures { told result at ≡ in_overflow (length overflow.now) at s }
{
    let length = overflow.len() as u64;
    // an offset past the end goes no further: no number wraps
    if length < at.overflow {
        return Err(Refusal::BadArea);
    }
    let start = overflow_start(at.overflow, s.align);
    if length < start + s.size {
        return Err(Refusal::BadArea);
    }
    Ok(Located {
        area: Area::Overflow,
        start,
        length: s.size,
        next: Offsets {
            overflow: start + rounded(s.size),
            ..at
        },
    })
}

// Where an alignment may start, from an overflow offset on.
#[tactic(auto, unfolding(crate::specs::Lists::overflow_start, shape::specs::Arithmetic::round_up))]
fn overflow_start(overflow: u64, align: u64) -> u64
    requires { overflow < 9223372036854775808 }
    ensures { result ≡ overflow_start overflow align }
{
    if align > 8 {
        return (overflow + 15) / 16 * 16;
    }
    overflow
}

// The bytes that a size takes, in places of 8.
// kept: here and above the rounding is written out, as `round_up` defines it: `next_multiple_of` asks besides whether a rest is left.
#[tactic(auto, unfolding(shape::specs::Arithmetic::round_up))]
fn rounded(size: u64) -> u64
    requires { size ≤ 16 }
    ensures { result ≡ round_up size 8 }
{
    (size + 7) / 8 * 8
}
