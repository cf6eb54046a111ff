// An argument after the dots (docs/REFERENCE.md, 9.5): what it finds left, and what it spends then, by what its description's variadic kind comes to.
// A fixed argument passes `describe::as_fixed`, by which it finds what the call has left and spends what was decided.
#![tactic(auto)]

ghost use Rattle.std.specs.Prelude.{◌≡◌};
ghost use Rattle.after_dots.specs.AfterDots.{is_pair, skipped_for, behind_start, left_for, spent_behind, spent_for, settled_for};

use describe::{Banks, Dots};
use spend::{Decision, Left, Spent, Way};

// Integer registers passed over before anything else is decided, so that a value of this size and alignment begins at an even one.
#[tactic(auto, unfolding(crate::specs::AfterDots::skipped_for, spend_scalar::specs::Spending::skip_of))]
pub fn skipped(dots: Dots, banks: Banks, left: Left, size: u64, align: u64) -> u64
    ensures { result ≡ skipped_for dots banks left size align }
{
    if !dots.starts_even {
        return 0;
    }
    spend_scalar::skip(
        is_pair(banks.integer_width, size, align),
        banks.integer.saturating_sub(left.integer),
        left.integer,
    )
}

// Whether a value is aligned to two words, and no larger. The words aren't added: two of them may pass 64 bits.
fn is_pair(width: u64, size: u64, align: u64) -> bool
    ensures { result ≡ is_pair width size align }
{
    (align.saturating_sub(width) == width) & (size <= align)
}

// What a value finds left: banks that are emptied for it, or those behind an even start, and the mark set for it alone.
pub fn left_for(dots: Dots, left: Left, skipped: u64) -> Left
    ensures { result ≡ left_for dots skipped left }
{
    if dots.emptied {
        return Left {
            integer: 0,
            float: 0,
            ..left
        };
    }
    let behind = behind_start(dots, left, skipped);
    if dots.integers_only {
        return behind.with_mark();
    }
    behind
}

fn behind_start(dots: Dots, left: Left, skipped: u64) -> Left
    ensures { result ≡ behind_start dots skipped left }
{
    if dots.starts_even {
        return Left {
            integer: left.integer.saturating_sub(skipped),
            ..left
        };
    }
    left
}

// What was decided by that, with what it spends of the call's own registers, of which so many integers are left.
#[tactic(auto, unfolding(crate::specs::AfterDots::settled_for))]
pub fn settled(dots: Dots, left: u64, skipped: u64, decision: Decision) -> Decision
    ensures { result ≡ settled_for dots left skipped decision }
{
    Decision {
        spent: spent_for(dots, left, skipped, decision),
        ..decision
    }
}

fn spent_for(dots: Dots, left: u64, skipped: u64, decision: Decision) -> Spent
    ensures { result ≡ spent_for dots left skipped decision }
{
    if dots.emptied {
        return Spent::NOTHING;
    }
    if dots.starts_even {
        return spent_behind(left, skipped, decision);
    }
    decision.spent
}

// The registers before an even start are passed over as well, unless nothing travels.
#[tactic(auto, using(crate::proofs::AfterDots::told_ignored))]
fn spent_behind(left: u64, skipped: u64, decision: Decision) -> Spent
    ensures { result ≡ spent_behind left skipped decision }
{
    if decision.way == Way::Ignore {
        return Spent::NOTHING;
    }
    let spent = decision.spent;
    let passed = skipped.saturating_add(spent.integers_passed);
    Spent {
        integers_passed: passed.min(left),
        ..spent
    }
}
