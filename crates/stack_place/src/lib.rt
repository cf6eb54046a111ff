// Where what isn't in registers stands (docs/REFERENCE.md, 9.9): how many bytes of a value go to the stack, what their offset is rounded to, and
// their place behind those of the operations before. An offset counts bytes from the first stack argument. Nothing here reads what a call has
// left: the offset moves by what was decided, and decides nothing.
#![tactic(auto)]

ghost use Rattle.std.specs.Prelude.{◌≡◌, Ok, cond, min, max};
ghost use Rattle.shape.specs.Numbers.{most_word};
ghost use Rattle.stack_place.specs.Stacked as specs;

use describe::{ReturnPointer, StackArgs};
use shape::{Refusal, Scalar};
use spend::{Spent, Way};

// The most bytes that a call's arguments take on the stack.
pub const MOST_STACK: u64 = 1099511627776;

// What an offset is rounded to at least, after the dots of a description whose arguments there always are in memory.
const LEAST_AFTER_DOTS: u64 = 8;

// A scalar of this alignment is rounded to it, in a packed area too.
const WIDE_ALIGN: u64 = 16;

// What placing reads of a description: the width of an integer register, how its stack arguments sit, and whether the value is after the dots and
// such a value always in memory.
#[derive(Clone, Copy)]
pub struct Area {
    pub width: u64,
    pub arguments: StackArgs,
    pub dots: bool,
}

// A value's bytes on the stack: so many from an offset on; 0 and 0 where none of it is there.
#[repr(C)]
#[derive(Clone, Copy, PartialEq, Eq)]
pub struct Stacked {
    pub at: u64,
    pub bytes: u64,
}

// A value's bytes, with the next offset. Bytes that would pass the limit have no place: that is NoRoom, and the offset stays as it was.
#[derive(Clone, Copy)]
pub struct Place {
    pub stacked: Stacked,
    pub next: u64,
}

impl Stacked {
    pub const NOWHERE: Stacked = Stacked { at: 0, bytes: 0 };
}

impl Place {
    // Nothing goes to the stack, and the offset stays.
    pub fn nowhere(stack: u64) -> Place
        ensures { specs.told stack (Ok result) ≡ specs.nowhere stack }
    {
        Place {
            stacked: Stacked::NOWHERE,
            next: stack,
        }
    }
}

impl Area {
    // What comes back: only the address of it may stand there.
    #[tactic(auto, using(crate::proofs::Placing::place_none), unfolding(crate::specs::Stacked::return_placed))]
    pub fn place_return(
        self,
        stack: u64,
        way: Way,
        pointer: ReturnPointer,
        spent: Spent,
    ) -> Result<Place, Refusal>
        ensures { specs.told stack result ≡ specs.return_placed self stack way pointer spent }
    {
        let bytes = return_bytes(way, pointer, spent, self.width);
        if bytes == 0 {
            return Ok(Place::nowhere(stack));
        }
        self.place(stack, bytes, self.width)
    }

    // A scalar argument.
    #[tactic(auto, using(crate::proofs::Placing::place_none), unfolding(crate::specs::Stacked::scalar_placed))]
    pub fn place_scalar(
        self,
        stack: u64,
        way: Way,
        spent: Spent,
        s: Scalar,
    ) -> Result<Place, Refusal>
        ensures { specs.told stack result ≡ specs.scalar_placed self stack way spent s }
    {
        let bytes = scalar_bytes(way, spent, s.size, self.width);
        if bytes == 0 {
            return Ok(Place::nowhere(stack));
        }
        self.place(stack, bytes, self.scalar_rounding(way, s))
    }

    // An aggregate argument, which has so many bytes for the stack (`aggregate_bytes`) and this alignment in memory.
    pub fn place_aggregate(
        self,
        stack: u64,
        way: Way,
        bytes: u64,
        align: u64,
    ) -> Result<Place, Refusal>
        ensures { specs.told stack result ≡ specs.placed_of self stack bytes (specs.aggregate_rounding way self align) }
    {
        self.place(stack, bytes, self.aggregate_rounding(way, align))
    }

    // ---- what the offset is rounded to

    fn scalar_rounding(self, way: Way, s: Scalar) -> u64
        ensures { result ≡ specs.scalar_rounding way self s }
    {
        match self.arguments {
            StackArgs::RegisterSized => {
                value_rounding(way, self.width, wide_or(s.align, self.width))
            }
            StackArgs::Packed => value_rounding(way, self.width, wide_or(s.align, s.size)),
        }
    }

    fn aggregate_rounding(self, way: Way, align: u64) -> u64
        ensures { result ≡ specs.aggregate_rounding way self align }
    {
        match self.arguments {
            StackArgs::RegisterSized => value_rounding(way, self.width, align.max(self.width)),
            StackArgs::Packed => value_rounding(way, self.width, align),
        }
    }

    fn rounding(self, rounding: u64) -> u64
        ensures { result ≡ specs.rounding_of self rounding }
    {
        if self.dots {
            return rounding.max(LEAST_AFTER_DOTS).max(1);
        }
        rounding.max(1)
    }

    // ---- how long it is there, and its place

    #[tactic(auto, using(crate::proofs::Placing::place_is))]
    fn place(self, stack: u64, bytes: u64, rounding: u64) -> Result<Place, Refusal>
        ensures { specs.told stack result ≡ specs.placed_of self stack bytes rounding }
    {
        put_behind(stack, self.length(bytes), self.rounding(rounding))
    }

    // In words, but for a packed area; the largest number where that passes 64 bits.
    fn length(self, bytes: u64) -> u64
        ensures { result ≡ min (specs.length_of self bytes) most_word }
    {
        match self.arguments {
            StackArgs::RegisterSized => shape::round_up(bytes, self.width),
            StackArgs::Packed => packed_length(self.dots, bytes, self.width),
        }
    }
}

// Whether the registers that an aggregate was given hold it, or its address: then it has no bytes for the stack. It is asked before these are counted
// and before an alignment in memory is looked for, since nearly every aggregate is held so.
pub fn is_held(way: Way, spent: Spent, slots: u64) -> bool
    ensures { result ≡ specs.is_held way spent slots }
{
    match way {
        Way::Ignore => true,
        Way::Direct | Way::Memory => false,
        Way::Pieces => beyond(spent, slots) == 0,
        Way::Reference => spent.integers_given != 0,
    }
}

// ---- how many bytes

fn return_bytes(way: Way, pointer: ReturnPointer, spent: Spent, width: u64) -> u64
    ensures { result ≡ specs.return_bytes way pointer spent width }
{
    match way {
        Way::Reference => address_bytes(pointer, spent, width),
        Way::Ignore | Way::Direct | Way::Pieces | Way::Memory => 0,
    }
}

fn address_bytes(pointer: ReturnPointer, spent: Spent, width: u64) -> u64
    ensures { result ≡ specs.address_bytes pointer spent width }
{
    match pointer {
        ReturnPointer::Dedicated => 0,
        ReturnPointer::FirstArgument | ReturnPointer::FirstArgumentPopped => {
            pointer_bytes(spent, width)
        }
    }
}

fn scalar_bytes(way: Way, spent: Spent, size: u64, width: u64) -> u64
    ensures { result ≡ specs.scalar_bytes way spent size width }
{
    match way {
        Way::Ignore => 0,
        Way::Direct | Way::Pieces => scalar_rest(spent, size, width),
        Way::Reference => pointer_bytes(spent, width),
        Way::Memory => size,
    }
}

// Of an aggregate of this size, in so many slots where it travels in slots; the largest number where that passes 64 bits.
pub fn aggregate_bytes(way: Way, spent: Spent, slots: u64, size: u64, width: u64) -> u64
    ensures { result ≡ min (specs.aggregate_bytes way spent slots size width) most_word }
{
    match way {
        Way::Ignore => 0,
        Way::Direct | Way::Memory => size,
        Way::Pieces => width.saturating_mul(beyond(spent, slots)),
        Way::Reference => pointer_bytes(spent, width),
    }
}

// The slots that have no register.
fn beyond(spent: Spent, slots: u64) -> u64
    ensures { result ≡ specs.slots_beyond spent slots }
{
    slots
        .saturating_sub(spent.integers_given)
        .saturating_sub(spent.floats_given)
}

fn pointer_bytes(spent: Spent, width: u64) -> u64
    ensures { result ≡ specs.pointer_bytes spent width }
{
    if spent.integers_given == 0 {
        return width;
    }
    0
}

// Where one register holds it whole, nothing is multiplied; and each way on which nothing is left is one of its own, which the compiler takes on to
// the end of the operation.
#[tactic(auto, using(crate::proofs::Placing::one_holds))]
fn scalar_rest(spent: Spent, size: u64, width: u64) -> u64
    ensures { result ≡ specs.scalar_rest spent size width }
{
    if spent.floats_given > 0 {
        return 0;
    }
    if spent.integers_given == 0 {
        return size;
    }
    if size <= width {
        return 0;
    }
    let held = width.saturating_mul(spent.integers_given);
    if size <= held {
        return 0;
    }
    size - held
}

// ---- what the offset is rounded to

// 16 where the alignment is 16, or else this. It is asked for each kind of area by itself: of one that isn't packed the compiler knows then that it
// isn't 0.
fn wide_or(align: u64, step: u64) -> u64
    ensures { result ≡ specs.wide_or align step }
{
    if align == WIDE_ALIGN {
        WIDE_ALIGN
    } else {
        step
    }
}

// That of a pointer, or the value's own.
fn value_rounding(way: Way, width: u64, own: u64) -> u64
    ensures { result ≡ specs.value_rounding way width own }
{
    match way {
        Way::Reference => width,
        Way::Ignore | Way::Direct | Way::Pieces | Way::Memory => own,
    }
}

fn packed_length(dots: bool, bytes: u64, width: u64) -> u64
    ensures { result ≡ min (cond dots (specs.in_words bytes width) bytes) most_word }
{
    if dots {
        return shape::round_up(bytes, width);
    }
    bytes
}

// Behind what stands there already. A sum that passes 64 bits passes the limit, too.
#[tactic(auto, unfolding(crate::specs::Stacked::behind))]
fn put_behind(stack: u64, bytes: u64, rounding: u64) -> Result<Place, Refusal>
    ensures { specs.told stack result ≡ specs.behind stack bytes (max rounding 1) }
{
    if bytes == 0 {
        return Ok(Place::nowhere(stack));
    }
    let at = shape::round_up(stack, rounding);
    let next = at.saturating_add(bytes);
    if next > MOST_STACK {
        return Err(Refusal::NoRoom);
    }
    Ok(Place {
        stacked: Stacked { at, bytes },
        next,
    })
}
