// What a scalar spends of the registers that a call has left, and how it travels: an argument, and one that comes back. The rules are those of
// docs/REFERENCE.md, 9.2 and 9.4.
#![tactic(auto)]

ghost use Rattle.std.specs.Prelude.{◌≡◌, false, min};
ghost use Rattle.shape.specs.Numbers.{integer};
ghost use Rattle.describe.specs.Questions.{is_by_reference};
ghost use Rattle.spend.specs.Ways.{spends, plain};
ghost use Rattle.spend.specs.Spending.{want_of};
ghost use Rattle.spend_scalar.specs.Spending.{scalar_argument, narrow_float, integer_argument, skip_of, scalar_return};

use describe::{Banks, ReturnPointer, Scalars};
use shape::Scalar;
use spend::{Decision, Left, Spent, Wanted, Way};

// A scalar argument: the first of the ten lines of REFERENCE 9.2 that applies. The kind is asked once: an integer has the lines 3, 5 and 8 to
// 10, a float the lines 2 and 4 to 7.
#[tactic(auto, unfolding(crate::specs::Spending::scalar_argument, crate::specs::Spending::scalar_in_registers))]
pub fn scalar_argument(banks: Banks, scalars: Scalars, left: Left, s: Scalar) -> Decision
    ensures { result ≡ scalar_argument banks scalars left s }
{
    // 1: wide goes by reference, and the size isn't that of a register
    if describe::scalar_is_by_reference(scalars, s.size) {
        return spend::by_address(left.integer);
    }
    if s.kind != shape::INTEGER {
        return float_argument(banks, scalars, left, s);
    }
    let want = spend::registers(s.size, banks.integer_width);
    // 3: wide integers in memory
    if scalars.wide_integer_in_memory & (want > 1) {
        return direct(left.integer, 0);
    }
    // 5: a shared bank
    if banks.shared {
        return taking(1, left.integer);
    }
    integer_argument(banks.integer, scalars, left.integer, want)
}

// A float that doesn't go by reference: the lines 2 and 4 to 7.
#[tactic(auto, unfolding(crate::specs::Spending::scalar_argument, crate::specs::Spending::scalar_in_registers))]
fn float_argument(banks: Banks, scalars: Scalars, left: Left, s: Scalar) -> Decision
    requires { (is_by_reference scalars s.size ≡ false) × (s.kind ≡ integer → ⊥) }
    ensures { result ≡ scalar_argument banks scalars left s }
{
    // 2: the description's memory format
    if s.kind == scalars.in_memory {
        return direct(0, 0);
    }
    // 4: integers-only
    if left.integers_only != spend::NO_MARK {
        let given = spend::registers(s.size, banks.integer_width).min(left.integer);
        let spent = Spent {
            integers_given: given,
            ..Spent::NOTHING
        };
        return Decision::pieces(Wanted::cut(s.size, banks.integer_width), spent);
    }
    // 5: a shared bank
    if banks.shared {
        return taking(1, left.integer);
    }
    // 6: no wider than the float width
    if s.size <= banks.float_width {
        return narrow_float(scalars, left, s.size, banks.integer_width);
    }
    // 7: a wider float
    taking(spend::registers(s.size, banks.integer_width), left.integer)
}

// A float that a float register holds takes one. With none left it may fall to the integer registers, of this width; the flag is looked at only then.
fn narrow_float(scalars: Scalars, left: Left, size: u64, width: u64) -> Decision
    ensures { result ≡ narrow_float scalars left (want_of size width) }
{
    if left.float > 0 {
        let spent = Spent {
            floats_given: 1,
            ..Spent::NOTHING
        };
        return Decision::plain(Way::Direct, spent);
    }
    if scalars.float_falls_to_integers {
        return taking(spend::registers(size, width), left.integer);
    }
    direct(0, 0)
}

// The lines 8 to 10: an integer that wants so many registers.
#[tactic(auto, unfolding(crate::specs::Spending::integer_argument))]
fn integer_argument(start: u64, scalars: Scalars, left: u64, want: u64) -> Decision
    ensures { result ≡ integer_argument start scalars left want }
{
    // 8: all or nothing
    if scalars.wide_integer_is_all_or_nothing {
        if want <= left {
            return direct(0, want);
        }
        return direct(0, 0);
    }
    // 9: wide, with an even start or a drain
    if (want > 1) & (scalars.wide_integer_starts_even | scalars.wide_integer_drains) {
        let skipped = skip(
            scalars.wide_integer_starts_even,
            start.saturating_sub(left),
            left,
        );
        if want <= left.saturating_sub(skipped) {
            return direct(skipped, want);
        }
        if scalars.wide_integer_drains {
            return direct(left, 0);
        }
        return direct(skipped, 0);
    }
    // 10: any other integer
    taking(want, left)
}

// Passed over for an even start: one, where an odd number is used and one is left.
#[tactic(auto, unfolding(crate::specs::Spending::skip_of))]
pub fn skip(even: bool, used: u64, left: u64) -> u64
    ensures { result ≡ skip_of even used left }
{
    if even & (used % 2 == 1) {
        return 1_u64.min(left);
    }
    0
}

// A scalar that comes back (REFERENCE 9.4).
#[tactic(auto, unfolding(crate::specs::Spending::scalar_return))]
pub fn scalar_return(scalars: Scalars, pointer: ReturnPointer, left: Left, s: Scalar) -> Decision
    ensures { result ≡ scalar_return scalars pointer left s }
{
    if !describe::scalar_returns_by_reference(scalars, s.size) {
        return direct(0, 0);
    }
    if (s.kind == shape::INTEGER) & (scalars.wide_integer_returns_in != shape::INTEGER) {
        let one = Wanted::one(scalars.wide_integer_returns_in, 0, 1);
        return Decision::pieces(one, Spent::NOTHING);
    }
    spend::by_pointer(pointer, left.integer)
}

// Direct, and given takes `want` of the integer registers that are left.
fn taking(want: u64, left: u64) -> Decision
    ensures { result ≡ plain Way.Direct (spends 0 (min want left) 0 0) }
{
    direct(0, want.min(left))
}

fn direct(passed: u64, given: u64) -> Decision
    ensures { result ≡ plain Way.Direct (spends passed given 0 0) }
{
    let spent = Spent {
        integers_passed: passed,
        integers_given: given,
        ..Spent::NOTHING
    };
    Decision::plain(Way::Direct, spent)
}
