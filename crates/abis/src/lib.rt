// The descriptions, read by number (REFERENCE 5.5): what classification reads of one, its row and its name; and the questions of
// REFERENCE 5.7 asked of a number. The table is the one place that has their order.
#![tactic(auto)]

ghost use Rattle.std.specs.Prelude.{◌≡◌, length};
ghost use Rattle.rows.specs.Row.{encode};
ghost use Rattle.abis.specs.Abis.{described};
ghost use Rattle.abis.specs.Brief.{brief_of, brief_from};
ghost use Rattle.abis.specs.Answers.{name_answer, name_written, is_by_reference_answer, returns_by_reference_answer, wide_returns_in_answer, told_yes, told_format, scalars_for};
ghost use Rattle.text.specs.Text.{told};

pub mod numbers;
mod table;

use describe::{Scalars, Terms};
use rows::{Rules, WIDTH};
use shape::Refusal;
use table::*;

pub const DESCRIPTIONS: u64 = 33;

// What classification reads of a description.
#[derive(Clone, Copy)]
pub struct Brief {
    pub terms: Terms,
    pub returns: Rules,
    pub arguments: Rules,
}

// Description `d` as classification reads it; the description of nothing where there is none.
// kept: an arm for each literal place of the table gives constants; a row that is chosen first and read behind the `match` costs two hundred
// instructions more (docs/DECISIONS.md, "The table").
pub fn read(d: u64) -> Brief
    ensures { result ≡ brief_of (described d) }
{
    let table = TABLE;
    match d {
        0 => read_of(table[0]),
        1 => read_of(table[1]),
        2 => read_of(table[2]),
        3 => read_of(table[3]),
        4 => read_of(table[4]),
        5 => read_of(table[5]),
        6 => read_of(table[6]),
        7 => read_of(table[7]),
        8 => read_of(table[8]),
        9 => read_of(table[9]),
        10 => read_of(table[10]),
        11 => read_of(table[11]),
        12 => read_of(table[12]),
        13 => read_of(table[13]),
        14 => read_of(table[14]),
        15 => read_of(table[15]),
        16 => read_of(table[16]),
        17 => read_of(table[17]),
        18 => read_of(table[18]),
        19 => read_of(table[19]),
        20 => read_of(table[20]),
        21 => read_of(table[21]),
        22 => read_of(table[22]),
        23 => read_of(table[23]),
        24 => read_of(table[24]),
        25 => read_of(table[25]),
        26 => read_of(table[26]),
        27 => read_of(table[27]),
        28 => read_of(table[28]),
        29 => read_of(table[29]),
        30 => read_of(table[30]),
        31 => read_of(table[31]),
        32 => read_of(table[32]),
        _ => read_of([0; WIDTH]),
    }
}

#[tactic(auto, unfolding(crate::specs::Brief::brief_from))]
fn read_of(row: [u8; WIDTH]) -> Brief
    ensures { result ≡ brief_from row }
{
    Brief {
        terms: rows::terms_of(row),
        returns: rows::return_rules(row),
        arguments: rows::argument_rules(row),
    }
}

// The row of description `d`, all zeros where there is none, for what isn't on an operation's path: an indexed constant is rebuilt at each
// read.
pub fn row(d: u64) -> [u8; WIDTH]
    ensures { result ≡ encode (described d) }
{
    if d < DESCRIPTIONS {
        let i = d as usize;
        TABLE[i]
    } else {
        [0; WIDTH]
    }
}

// Its name, into a lent buffer: the bytes go to the front of `out`; how many they are. A refusal writes nothing.
#[tactic(auto, unfolding(crate::specs::Answers::name_answer, crate::specs::Answers::name_written))]
pub fn name(d: u64, out: &mut [u8]) -> Result<usize, Refusal>
    ensures { (told result ≡ name_answer d (length out.old)) × (out.new ≡ name_written d out.old) }
{
    let Some(name) = name_of(d) else {
        return Err(Refusal::BadAbi);
    };
    text::put(name, out)
}

// Whether a scalar of this size travels as the address of a copy.
#[tactic(auto, unfolding(crate::specs::Answers::is_by_reference_answer, crate::specs::Answers::question_refusal, crate::specs::Answers::asked_yes, crate::specs::Answers::scalars_for))]
pub fn scalar_is_by_reference(d: u64, size: u64) -> Result<bool, Refusal>
    ensures { told_yes result ≡ is_by_reference_answer d size }
{
    Ok(describe::scalar_is_by_reference(scalars_for(d, size)?, size))
}

// Whether it comes back through the address that the caller passes.
#[tactic(auto, unfolding(crate::specs::Answers::returns_by_reference_answer, crate::specs::Answers::question_refusal, crate::specs::Answers::asked_yes, crate::specs::Answers::scalars_for))]
pub fn scalar_returns_by_reference(d: u64, size: u64) -> Result<bool, Refusal>
    ensures { told_yes result ≡ returns_by_reference_answer d size }
{
    Ok(describe::scalar_returns_by_reference(scalars_for(d, size)?, size))
}

// The format in which an integer of this size comes back where it is by reference otherwise, or 0, the integer kind, for none, as a
// description has it.
#[tactic(auto, unfolding(crate::specs::Answers::wide_returns_in_answer, crate::specs::Answers::question_refusal, crate::specs::Answers::asked_format, crate::specs::Answers::scalars_for))]
pub fn wide_integer_returns_in(d: u64, size: u64) -> Result<u64, Refusal>
    ensures { told_format result ≡ wide_returns_in_answer d size }
{
    Ok(describe::wide_integer_returns_in(scalars_for(d, size)?, size))
}

// A description's scalar rules, where they can be asked about a scalar of this size.
#[tactic(auto, unfolding(crate::specs::Answers::scalars_for))]
fn scalars_for(d: u64, size: u64) -> Result<Scalars, Refusal>
    ensures { result ≡ scalars_for d size }
{
    if d >= DESCRIPTIONS {
        return Err(Refusal::BadAbi);
    }
    if size > checks::MOST_SIZE {
        return Err(Refusal::BadSize);
    }
    Ok(read(d).terms.scalars)
}
