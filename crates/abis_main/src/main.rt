// Prints every field, rule and question of the descriptions, a fact to a line, each as its number (REFERENCE 5). The original's own
// answers are printed in the same form, and the two are compared.
#![tactic(auto)]

use arrayvec::ArrayString;
use describe::{Banks, Others, Rule, Scalars, Terms, Test};
use rows::Rules;
use std::fmt::Write as _;
use std::io::{ErrorKind, Write};
use std::{fmt, io, str};

// No name has more bytes.
const LONGEST: usize = 64;

// The lines of a description. They have no more bytes together.
type Text = ArrayString<4096>;

// The lines of a description leave in one write, so that none is torn.
fn main(rt: HostRuntime) -> io::Result<()> {
    let mut out = io::writer(&rt);
    for d in 0..abis::DESCRIPTIONS {
        let mut text = Text::new();
        if description(&mut text, d).is_err() {
            return Err(io::Error::from(ErrorKind::WriteZero));
        }
        out.write_all(text.as_str().as_bytes())?;
    }
    Ok(())
}

fn description(out: &mut Text, d: u64) -> fmt::Result {
    let terms = abis::read(d).terms;
    let row = abis::row(d);
    name(out, d)?;
    banks(out, d, terms.banks)?;
    scalars(out, d, terms.scalars)?;
    others(out, d, terms, rows::others_of(row))?;
    rules(out, d, "returns", rows::return_rules(row))?;
    rules(out, d, "arguments", rows::argument_rules(row))?;
    questions(out, d)
}

fn name(out: &mut Text, d: u64) -> fmt::Result {
    let mut space = [0; LONGEST];
    let length = abis::name(d, &mut space).unwrap_or(0);
    let name = str::from_utf8(&space[..length.min(LONGEST)]).unwrap_or("");
    writeln!(out, "row {d} name {name}")
}

fn banks(out: &mut Text, d: u64, banks: Banks) -> fmt::Result {
    writeln!(
        out,
        "row {d} banks {} {} {} {} {}",
        banks.integer, banks.float, banks.shared as u8, banks.integer_width, banks.float_width
    )
}

fn scalars(out: &mut Text, d: u64, scalars: Scalars) -> fmt::Result {
    writeln!(
        out,
        "row {d} scalars {} {} {} {} {} {} {} {} {} {}",
        scalars.in_memory,
        scalars.wide_integer_is_all_or_nothing as u8,
        scalars.wide_integer_starts_even as u8,
        scalars.wide_integer_drains as u8,
        scalars.wide_is_by_reference as u8,
        scalars.wide_integer_returns_in,
        scalars.wide_integer_in_memory as u8,
        scalars.decimal_in_integers as u8,
        scalars.quad_returns_by_reference as u8,
        scalars.float_falls_to_integers as u8
    )
}

fn others(out: &mut Text, d: u64, terms: Terms, others: Others) -> fmt::Result {
    writeln!(
        out,
        "row {d} others {} {} {} {} {} {}",
        rows::return_pointer_number(terms.return_pointer),
        rows::variadic_number(terms.variadic),
        rows::stack_args_number(terms.stack_args),
        rows::narrow_number(others.narrow),
        rows::bit_ints_number(others.bit_ints),
        rows::cleanup_number(others.cleanup)
    )
}

fn rules(out: &mut Text, d: u64, list: &str, rules: Rules) -> fmt::Result {
    for (i, from_here) in (0..rows::RULES).zip(rules) {
        let rule = rows::first_rule(from_here);
        writeln!(out, "row {d} {list} {i} {}", Numbered(rule))?;
    }
    Ok(())
}

// A rule as its numbers: its test's, the four that the test may have, the way of travel's, and the one of what happens when short.
#[derive(Drop)]
struct Numbered(Rule);

impl fmt::Display for Numbered {
    fn fmt<W: fmt::Write>(&self, f: &mut fmt::Formatter<W>) -> fmt::Result {
        let Rule { when, then, short } = self.0;
        match when {
            Test::Anything => f.write_str("0 0 0 0 0")?,
            Test::Empty => f.write_str("1 0 0 0 0")?,
            Test::SizeOneOf(count, a, b, c, d) => {
                f.write_str("2")?;
                // A size that its place among the four puts beyond the count isn't one of the list's.
                for (place, size) in [a, b, c, d].into_iter().enumerate() {
                    let size = if (place as u64) < count { size } else { 0 };
                    write!(f, " {size}")?;
                }
            }
            Test::SizeAtMost(limit) => write!(f, "3 {limit} 0 0 0")?,
            Test::Homogeneous(limit) => write!(f, "4 {limit} 0 0 0")?,
            Test::FloatPair => f.write_str("5 0 0 0 0")?,
            Test::X87Stack => f.write_str("6 0 0 0 0")?,
            Test::LoneFloat => f.write_str("7 0 0 0 0")?,
            Test::FloatingMode => f.write_str("8 0 0 0 0")?,
            Test::ComplexFloat => f.write_str("9 0 0 0 0")?,
            Test::Eightbytes(limit) => write!(f, "10 {limit} 0 0 0")?,
        }
        write!(f, " {} {}", then as u8, short as u8)
    }
}

// No description refuses a question here.
fn questions(out: &mut Text, d: u64) -> fmt::Result {
    for size in 0..=checks::MOST_SIZE {
        let is = abis::scalar_is_by_reference(d, size).unwrap_or(false);
        let returns = abis::scalar_returns_by_reference(d, size).unwrap_or(false);
        let format = abis::wide_integer_returns_in(d, size).unwrap_or(0);
        writeln!(
            out,
            "row {d} questions {size} {} {} {format}",
            is as u8, returns as u8
        )?;
    }
    Ok(())
}
