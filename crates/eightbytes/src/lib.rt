// The eightbytes of a shape, as the System V convention classifies them: each piece gives its class to the eightbytes that it reaches into,
// and the classes decide the slots, which the crate slot_writing writes. Whether a piece fits stands in `pieces`, classes as
// numbers in `codes`. The rules are those of docs/REFERENCE.md, 8.
#![tactic(auto)]

mod codes;
mod pieces;

ghost use Rattle.std.specs.Prelude.{◌≡◌, ℕ, ◌-◌, ◌<◌, ◌≤◌, ◌||◌, take, drop, replicate};
ghost use Rattle.std.proofs.Math.Option.Option.{none};
ghost use Rattle.shape.specs.Words.{pieces_of};
ghost use Rattle.slots.specs.Search.{found_of};
ghost use Rattle.eightbytes.specs.Class.{X87, Memory, same, kind_class, later as later·, mended as mended·, is_plain as is_plain·, merge as merge·};
ghost use Rattle.eightbytes.specs.Eightbytes.{eightbytes_in, mark as mark·, settled, slots_found, eight_of, classes_of};
ghost use Rattle.eightbytes.specs.Reach.{last_of};
ghost use Rattle.eightbytes.specs.Eightbytes.{eightbytes as eightbytes·};

pub use codes::{Eight, SSE, SSE_UP, later, mended};
pub use pieces::{EIGHTBYTE, fits};
use shape::{Piece, Shape};
use slots::Found;

// The bytes of two eightbytes. Most shapes that come in registers have no more, so both the counting and the writing take these first.
pub const PAIR: u64 = 16;

// A limit above eight eightbytes counts as eight: so many classes there are, and no description's limit is above two.
const MOST_LIMIT: u64 = 64;

// The class of an eightbyte. None is that of one into which no piece reaches.
#[derive(Clone, Copy, PartialEq, Eq)]
pub enum Class {
    None,
    Integer,
    Sse,
    SseUp,
    X87,
    Memory,
}

impl Class {
    // x87 values are told apart from other floats, since no argument register takes them.
    pub fn of(kind: u64) -> Class
        ensures { result ≡ kind_class kind }
    {
        match kind {
            shape::INTEGER => Class::Integer,
            shape::X87_EXTENDED => Class::X87,
            _ => Class::Sse,
        }
    }

    // The class of a piece's next eightbyte: a float wider than one is one value in one register, where an integer of 16 has two.
    #[tactic(auto, unfolding(crate::specs::Class::code, crate::specs::Class::same))]
    pub fn later(self) -> Class
        ensures { result ≡ later· self }
    {
        match self {
            Class::Sse => Class::SseUp,
            class => class,
        }
    }

    // The rule after the merge: the upper half of a value whose lower half is something else stands on its own, as in a union of a Quad and
    // an integer of 8.
    #[tactic(auto, unfolding(crate::specs::Class::code, crate::specs::Class::same))]
    pub fn mended(self, below: Class) -> Class
        ensures { result ≡ mended· below self }
    {
        match (self, below) {
            (Class::SseUp, Class::Sse | Class::SseUp) => self,
            (Class::SseUp, _) => Class::Sse,
            _ => self,
        }
    }

    // Whether it comes before SseUp: the rule after the merge leaves it as it is, and it has a slot of its own.
    #[tactic(auto, unfolding(crate::specs::Class::code, crate::specs::Class::same))]
    fn is_plain(self) -> bool
        ensures { result ≡ is_plain· self }
    {
        matches!(self, Class::None | Class::Integer | Class::Sse)
    }

    // Whether such an eightbyte takes all others along to memory.
    #[tactic(auto, unfolding(crate::specs::Class::code, crate::specs::Class::same))]
    fn spoils(self) -> bool
        ensures { result ≡ (same self X87 || same self Memory) }
    {
        matches!(self, Class::X87 | Class::Memory)
    }
}

// What the search comes back with, and beside it the class of each eightbyte of the shape: `slot_writing::put_eightbytes` writes the slots
// from these.
#[derive(Clone, Copy)]
pub struct Classified {
    pub found: Option<Found>,
    pub classes: [Class; 8],
}

// The slots of a shape of at most so many bytes, by the classes of its eightbytes.
pub fn eightbytes(shape: Shape, words: &[u64], limit: u64) -> Classified
    ensures { (result.found ≡ found_of (eightbytes· limit shape (pieces_of words.now))) × (result.classes ≡ classes_of limit shape (pieces_of words.now)) }
{
    let size = shape.size;
    if size > limit.min(MOST_LIMIT) {
        return nothing();
    }
    let n = slots::parts(size, EIGHTBYTE) as usize;
    let mut classes = [Class::None; 8];
    for p in shape::each_piece(words) {
        if !fits(n, p) {
            return nothing();
        }
        mark(&mut classes, p);
    }
    settle(classes, size, n)
}

#[tactic(auto, unfolding(crate::specs::Eightbytes::eight_of))]
fn nothing() -> Classified
    ensures { (result.found ≡ None) × (result.classes ≡ eight_of none) }
{
    Classified {
        found: None,
        classes: [Class::None; 8],
    }
}

// Merges a piece's class into each eightbyte that it reaches into.
fn mark(classes: &mut [Class; 8], p: Piece)
    requires { last_of p < 8 }
    ensures { classes.new ≡ mark· classes.old p }
{
    let first = (p.offset / EIGHTBYTE) as usize;
    let last = ((p.end() - 1) / EIGHTBYTE) as usize;
    let mut class = Class::of(p.kind);
    // most pieces lie in one eightbyte, and go without the loop
    if first == last {
        classes[first] = merge(classes[first], class);
        return;
    }
    for at in first..last + 1 {
        classes[at] = merge(classes[at], class);
        class = class.later();
    }
}

// What two classes make, by the first rule that applies, in the order of `merge` in specs/Class.antt, which has the reasons rule by rule: an
// eightbyte goes in one register, so an integer takes the float beside it along, and an x87 value beside anything leaves memory only.
// Comparisons take no constant data, as a table would in every archive that classifies.
// kept: a match over both classes is compiled to a table of jumps (docs/DECISIONS.md, "The searches")
#[tactic(auto, unfolding(crate::specs::Class::code, crate::specs::Class::same, crate::specs::Class::merge))]
fn merge(a: Class, b: Class) -> Class
    ensures { result ≡ merge· a b }
{
    if (a == b) | (a == Class::None) {
        return b;
    }
    if b == Class::None {
        return a;
    }
    if a.spoils() | b.spoils() {
        return Class::Memory;
    }
    if (a == Class::Integer) | (b == Class::Integer) {
        return Class::Integer;
    }
    Class::Sse
}

// The rule after the merge, and the counts. At most two eightbytes whose classes come before SseUp stay as they are, a slot for each.
fn settle(classes: [Class; 8], size: u64, n: usize) -> Classified
    requires { (n ≤ 8) × (drop n classes ≡ replicate (8 - n) Class.None) × (n ≡ eightbytes_in size) }
    ensures { (result.found ≡ found_of (slots_found size (settled (take n classes)))) × (result.classes ≡ eight_of (settled (take n classes))) }
{
    if size > PAIR {
        return settle_all(classes, n);
    }
    let first = classes[0];
    if !first.is_plain() {
        return settle_all(classes, n);
    }
    let second = classes[1];
    if !second.is_plain() {
        return settle_all(classes, n);
    }
    let count = n as u64;
    let floats = u64::from(first == Class::Sse) + u64::from(second == Class::Sse);
    Classified {
        found: Some(Found { count, floats }),
        classes,
    }
}

// In one pass from the first eightbyte up. How many slots there are doesn't depend on the size.
fn settle_all(classes: [Class; 8], n: usize) -> Classified
    requires { (n ≤ 8) × (drop n classes ≡ replicate (8 - n) Class.None) }
    ensures { ((size : ℕ) → result.found ≡ found_of (slots_found size (settled (take n classes)))) × (result.classes ≡ eight_of (settled (take n classes))) }
{
    // said once more: the compiler doesn't know the promise, and makes less of a loop with a bound
    let most = (n as u64).min(8) as usize;
    let mut cs = classes;
    let mut below = Class::None;
    let mut count = 0;
    let mut floats = 0;
    for class in &mut cs[..most] {
        let mended = class.mended(below);
        if mended.spoils() {
            return nothing();
        }
        *class = mended;
        count += u64::from(mended != Class::SseUp);
        floats += u64::from(mended == Class::Sse);
        below = mended;
    }
    Classified {
        found: Some(Found { count, floats }),
        classes: cs,
    }
}
