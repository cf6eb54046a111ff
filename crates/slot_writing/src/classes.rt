// The slots of a shape that came in eightbytes, written from the classes that the crate eightbytes found (docs/REFERENCE.md, 8).
ghost use Rattle.std.specs.Prelude.{◌≡◌, ◌+◌, ◌≤◌, min, leb, length, take, drop};
ghost use Rattle.slots.specs.Words.{words_of, written};
ghost use Rattle.shape.specs.Words.{put_at};
ghost use Rattle.eightbytes.specs.Eightbytes.{eightbytes_in, up_first, own_slot, class_slot, format_of, slot_count, slots_of_eight};

use eightbytes::{Class, EIGHTBYTE, Eight, PAIR};
use slots::Slot;

// Writes the slots that classes stand for in a shape of this size, at the front where they all fit. The classes come as they are or as codes.
pub fn put_eightbytes<E: Eight>(classes: E, size: u64, out: &mut [u64])
    ensures { out.new ≡ written (slots_of_eight size (E.eight classes)) out.old }
{
    put_classes(classes.classes(), size, out);
}

fn put_classes(classes: [Class; 8], size: u64, out: &mut [u64])
    ensures { out.new ≡ written (slots_of_eight size classes) out.old }
{
    if size <= PAIR {
        put_pair(classes, size, out);
        return;
    }
    let n = eightbytes_in(size);
    if slots::room(out.len()) < count_slots(classes, n) {
        return;
    }
    let mut at = 0;
    for i in 0..n {
        let offset = EIGHTBYTE * (i as u64);
        let up = up_at(classes, n, i + 1);
        at = put_eightbyte(out, at, classes[i], up, offset, size - offset);
    }
}

// The same for at most two eightbytes, without a loop.
fn put_pair(classes: [Class; 8], size: u64, out: &mut [u64])
    requires { size ≤ 16 }
    ensures { out.new ≡ written (slots_of_eight size classes) out.old }
{
    if size == 0 {
        return;
    }
    if size <= EIGHTBYTE {
        put_eightbyte(out, 0, classes[0], false, 0, size);
        return;
    }
    if !has_room(classes, 2, slots::room(out.len())) {
        return;
    }
    let up = classes[1] == Class::SseUp;
    let next = put_eightbyte(out, 0, classes[0], up, 0, size);
    put_eightbyte(out, next, classes[1], false, EIGHTBYTE, size - EIGHTBYTE);
}

// How many of the eight classes a shape of this size has.
#[tactic(auto, using(slots::proofs::Cut::length_cut))]
fn eightbytes_in(size: u64) -> usize
    ensures { result ≡ min (eightbytes_in size) 8 }
{
    slots::parts(size, EIGHTBYTE).min(8) as usize
}

// Whether the slots of the first n classes are at most so many. They are at most n, so they are counted only where that is too many.
fn has_room(classes: [Class; 8], n: usize, room: usize) -> bool
    requires { n ≤ 8 }
    ensures { result ≡ leb (slot_count (take n classes)) room }
{
    n <= room || count_slots(classes, n) <= room
}

// How many slots the first n classes stand for.
fn count_slots(classes: [Class; 8], n: usize) -> usize
    requires { n ≤ 8 }
    ensures { result ≡ slot_count (take n classes) }
{
    let mut count = 0;
    for class in &classes[..n] {
        count += usize::from(*class != Class::SseUp);
    }
    count
}

// Whether the eightbyte at an index is one of the first n, and an upper half.
#[tactic(auto, using(crate::proofs::Put::up_none, crate::proofs::Put::up_some))]
fn up_at(classes: [Class; 8], n: usize, i: usize) -> bool
    requires { n ≤ 8 }
    ensures { result ≡ up_first (drop i (take n classes)) }
{
    i < n && classes[i] == Class::SseUp
}

// Writes the slot of one eightbyte, if it has one of its own, and says where the next one goes.
fn put_eightbyte(
    out: &mut [u64],
    at: usize,
    class: Class,
    up: bool,
    offset: u64,
    left: u64,
) -> usize
    requires { at ≤ length out.old }
    ensures { (result ≡ at + length (words_of (class_slot class up offset left))) × (out.new ≡ put_at out.old at (words_of (class_slot class up offset left))) }
{
    if class == Class::SseUp {
        return at;
    }
    slots::put_slot(out, at, slot_of(class, up, offset, left));
    at + slots::SLOT
}

#[tactic(auto, unfolding(eightbytes::specs::Class::code, eightbytes::specs::Class::same))]
fn slot_of(class: Class, up: bool, offset: u64, left: u64) -> Slot
    ensures { result ≡ own_slot class up offset left }
{
    match class {
        Class::Sse => Slot {
            kind: format_of(up, left),
            offset,
            size: 0,
        },
        _ => Slot {
            kind: shape::INTEGER,
            offset,
            size: left.min(EIGHTBYTE),
        },
    }
}

// Four bytes or fewer of floating point are one Single; more are a Double, or two Singles in the same register.
fn format_of(up: bool, left: u64) -> u64
    ensures { result ≡ format_of up left }
{
    if up {
        return shape::QUAD;
    }
    if left <= 4 {
        return shape::SINGLE;
    }
    shape::DOUBLE
}
