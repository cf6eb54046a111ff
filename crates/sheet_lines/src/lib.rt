// The line of an operation (docs/REFERENCE.md, 11): what it is or how the value travels, the counts left, passed over and given, then the
// slots or the refusal, and last the stack offsets before and after. A line is written whole, or not at all.
#![tactic(auto)]

mod writing;

ghost use Rattle.std.specs.Prelude.{◌≡◌, ◌&&◌, ◌+◌, ◌*◌, ◌/◌, ◌≤◌, leb, length, take};
ghost use Rattle.slots.specs.Words.{slot_size, most_slots};
ghost use Rattle.text.specs.Text.{Put};
ghost use Rattle.text.specs.Numbers.{most_part};
ghost use Rattle.sheet_lines.specs.Printing as spec;

use classify::{Answer, Outcome};
use sheet_records::Act;
use spend::Way;
use writing::{put_part, put_text};

// The letters of the longest name.
const MOST_NAME: usize = 9;

// The words of a slot that a line has room for: one more than a slot has, so that it can gain a word and no buffer for lines has to grow.
const LINE_SLOT: usize = 4;

// No line is longer: a name, six counts, the words of the most slots, two offsets, and a newline.
pub const LONGEST: usize = MOST_NAME
    + 6 * text::MOST_PART
    + slots::MOST_SLOTS * LINE_SLOT * text::MOST_PART
    + 2 * text::MOST_PART
    + 1;

// Writes the line of an operation from a place of the text on, and answers where it ends. `before` is the stack offset of the call that the
// operation was performed on. Nothing is written where the longest line has no room, and of an answer that has more slots than any result
// needs or than stand beside it: no answer of an operation has.
pub fn put_line(
    act: Act,
    before: u64,
    answer: Answer,
    slots: &[u64],
    out: &mut [u8],
    at: usize,
) -> usize
    ensures { spec.Lined act before answer slots.now out.old at result out.new }
{
    if !has_room(out.len(), at) {
        return at;
    }
    if !are_there(answer.outcome.slots, slots.len()) {
        return at;
    }
    print(act, before, answer, slots, out, at)
}

// Whether the longest line fits from a place on.
pub fn has_room(length: usize, at: usize) -> bool
    ensures { result ≡ leb (at + spec.longest) length }
{
    length >= LONGEST && at <= length - LONGEST
}

// Whether so many slots are few enough for a line and stand among so many words.
fn are_there(n: u64, words: usize) -> bool
    ensures { result ≡ leb n most_slots && leb n (words / slot_size) }
{
    (n <= slots::MOST_SLOTS as u64) & (n <= slots::room(words) as u64)
}

// kept: a buffer and a place in it as parameters, of each function that puts text. The crate text takes and answers them so, and each method of a
// struct that held both would have to promise besides that it holds the same buffer still.
fn print(act: Act, before: u64, answer: Answer, slots: &[u64], out: &mut [u8], at: usize) -> usize
    requires { (at + spec.longest ≤ length out.old) × (answer.outcome.slots ≤ most_slots) × (answer.outcome.slots * slot_size ≤ length slots.now) }
    ensures { Put out.old at (spec.line act before answer slots.now) result out.new }
{
    let a = put_text(out, at, name(act, answer.outcome));
    let b = put_counts(answer, out, a);
    let c = put_rest(answer.outcome, slots, out, b);
    put_end(act, before, answer, out, c)
}

// What the operation is, or how the value travels.
#[tactic(auto, unfolding(crate::specs::Printing::name_text, crate::specs::Printing::act_text))]
fn name(act: Act, outcome: Outcome) -> &'static [u8]
    ensures text { result.now ≡ spec.name_text act outcome }
    ensures most { length result.now ≤ spec.most_name }
{
    if outcome.refusal != shape::ACCEPTED {
        return b"refused";
    }
    match act {
        Act::Fresh => b"fresh",
        Act::Mark => b"marked",
        Act::Value => way_name(Way::from(outcome.way)),
    }
}

#[tactic(auto, unfolding(crate::specs::Printing::way_text))]
fn way_name(way: Way) -> &'static [u8]
    ensures text { result.now ≡ spec.way_text way }
    ensures most { length result.now ≤ spec.most_name }
{
    match way {
        Way::Ignore => b"ignore",
        Way::Direct => b"direct",
        Way::Pieces => b"pieces",
        Way::Reference => b"reference",
        Way::Memory => b"memory",
    }
}

fn put_counts(answer: Answer, out: &mut [u8], at: usize) -> usize
    requires { at + spec.most_counts ≤ length out.old }
    ensures { Put out.old at (spec.counts_text answer) result out.new × (result ≤ at + spec.most_counts) }
{
    let left = answer.next.left;
    let spent = answer.outcome.spent;
    let a = put_pair(out, at, left.integer, left.float);
    let b = put_pair(out, a, spent.integers_passed, spent.integers_given);
    put_pair(out, b, spent.floats_passed, spent.floats_given)
}

fn put_rest(outcome: Outcome, slots: &[u64], out: &mut [u8], at: usize) -> usize
    requires { (at + spec.most_rest ≤ length out.old) × (outcome.slots ≤ most_slots) × (outcome.slots * slot_size ≤ length slots.now) }
    ensures { Put out.old at (spec.rest_text outcome slots.now) result out.new × (result ≤ at + spec.most_rest) }
{
    if outcome.refusal != shape::ACCEPTED {
        return put_part(out, at, b' ', outcome.refusal);
    }
    put_slots(&slots[..outcome.slots as usize * slots::SLOT], out, at)
}

// The words of slots: a space before each slot, and a colon between its words.
fn put_slots(slots: &[u64], out: &mut [u8], at: usize) -> usize
    requires { at + length slots.now * most_part ≤ length out.old }
    ensures { Put out.old at (spec.slots_text 0 slots.now) result out.new × (result ≤ at + length slots.now * most_part) }
{
    let mut to = at;
    for (i, word) in slots.iter().enumerate() {
        to = put_part(out, to, mark(i), *word);
    }
    to
}

fn mark(i: usize) -> u8
    ensures { result ≡ spec.mark_at i }
{
    if i % slots::SLOT == 0 { b' ' } else { b':' }
}

// The stack offset before the operation and the one after it, and the newline.
fn put_end(act: Act, before: u64, answer: Answer, out: &mut [u8], at: usize) -> usize
    requires { at + spec.most_end ≤ length out.old }
    ensures { Put out.old at (spec.end_text act before answer) result out.new }
{
    let after = answer.next.stack;
    let to = put_pair(out, at, offset_before(act, before, after), after);
    put_text(out, to, b"\n")
}

// A fresh call is performed on none, and has its own offset twice.
fn offset_before(act: Act, before: u64, after: u64) -> u64
    ensures { result ≡ spec.offset_before act before after }
{
    match act {
        Act::Fresh => after,
        Act::Mark | Act::Value => before,
    }
}

// Two numbers, each behind a space.
fn put_pair(out: &mut [u8], at: usize, m: u64, n: u64) -> usize
    requires { at + spec.most_pair ≤ length out.old }
    ensures { Put out.old at (spec.pair m n) result out.new × (result ≤ at + spec.most_pair) }
{
    let to = put_part(out, at, b' ', m);
    put_part(out, to, b' ', n)
}
