// One call and its operations: a return value, an argument, an argument after the dots, and the mark of a variadic function (docs/REFERENCE.md, 9).
// A call is a value, and each operation hands back the next one. Anyone can hand in any numbers: every operation checks for itself.
#![tactic(auto)]

ghost use Rattle.std.specs.Prelude.{◌≡◌, [], Ok};
ghost use Rattle.shape.specs.Refusals.{number_of, refusal_of};
ghost use Rattle.shape.specs.Words.{pieces_of};
ghost use Rattle.describe.specs.Description.{Ends};
ghost use Rattle.rows.specs.Row.{listed};
ghost use Rattle.stack_place.specs.Stacked.{return_placed, told};
ghost use Rattle.classify.specs.Stacking.{area_of, stacked_of};
ghost use Rattle.classify.specs.Spending as rules;
ghost use Rattle.classify.specs.Answers.{fresh_answer, void_answer, variadic_answer, in_memory_answer, memory_told, Returns, Passes, PassesVariadic};
ghost use Rattle.classify.specs.Answers as answers;
ghost use Rattle.classify.specs.Parts as parts;

use abis::Brief;
use describe::{Dots, Terms, Variadic};
use eightbytes::Class;
use rows::Rules;
use shape::{Arg, Refusal, Scalar, Shape};
use spend::{Decision, Left, Spent, Wanted, Way};
use stack_place::{Area, Place, Stacked};

// One call: the number of its description, what it has left, and the offset at which the next argument on the stack may stand.
#[repr(C)]
#[derive(Clone, Copy, PartialEq, Eq)]
pub struct Call {
    pub abi: u64,
    pub left: Left,
    pub stack: u64,
}

// The number of the way that the value travels, what it passes over and is given, how many slots were written, and where on the stack it stands; or
// the refusal, with every other number 0. Methods, exported entries and the forms over a lent call all have this one.
#[repr(C)]
#[derive(Clone, Copy, PartialEq, Eq)]
pub struct Outcome {
    pub refusal: u64,
    pub way: u64,
    pub spent: Spent,
    pub slots: u64,
    pub stacked: Stacked,
}

impl Outcome {
    // Nothing travels and nothing is spent.
    const NOTHING: Outcome = Outcome {
        refusal: shape::ACCEPTED,
        way: Way::Ignore as u64,
        spent: Spent::NOTHING,
        slots: 0,
        stacked: Stacked::NOWHERE,
    };
}

// The next call beside the outcome. A refusal hands back the call that it was handed.
#[repr(C)]
#[derive(Clone, Copy, PartialEq, Eq)]
pub struct Answer {
    pub next: Call,
    pub outcome: Outcome,
}

// What an operation is asked about: what comes back, an argument, or one after the dots.
#[derive(Clone, Copy, PartialEq, Eq)]
enum Role {
    Return,
    Argument,
    VariadicArgument,
}

impl Role {
    fn is_return(self) -> bool
        ensures { result ≡ parts.is_return self }
    {
        self == Role::Return
    }

    // One of the two lists.
    fn list(self, brief: Brief) -> Rules
        ensures { result ≡ parts.list_for (parts.is_return self) brief }
    {
        match self {
            Role::Return => brief.returns,
            Role::Argument | Role::VariadicArgument => brief.arguments,
        }
    }

    // An argument after the dots does what its description's variadic kind comes to, any other value what a fixed argument does.
    fn dots(self, variadic: Variadic) -> Dots
        ensures { result ≡ parts.dots_for (parts.is_after_dots self) variadic }
    {
        match self {
            Role::VariadicArgument => describe::dots_of(variadic),
            Role::Return | Role::Argument => describe::as_fixed(),
        }
    }
}

impl Call {
    // The start of a call on a description, with every register still to spend; all zeros where it is refused.
    #[tactic(auto, unfolding(crate::specs::Answers::fresh_answer))]
    pub fn fresh(abi: u64) -> Answer
        ensures { result ≡ fresh_answer abi }
    {
        if abi >= abis::DESCRIPTIONS {
            return refused(unmarked(0, 0, 0), Refusal::BadAbi);
        }
        let banks = abis::read(abi).terms.banks;
        done(unmarked(abi, banks.integer, banks.float))
    }

    // The same call, to a function whose parameters end in dots.
    #[tactic(auto, using(crate::proofs::Steps::mark_missing, crate::proofs::Steps::mark_done))]
    pub fn variadic(self) -> Answer
        ensures { result ≡ variadic_answer self }
    {
        if self.abi >= abis::DESCRIPTIONS {
            return refused(self, Refusal::BadAbi);
        }
        let terms = abis::read(self.abi).terms;
        if let Err(refusal) = check_call(terms, self) {
            return refused(self, refusal);
        }
        done(Call {
            left: marked(terms.variadic, self.left),
            ..self
        })
    }

    // How the return value comes back. It is asked first, since an address for it may spend an argument register.
    pub fn returns(self, arg: Arg, words: &[u64], out: &mut [u64]) -> Answer
        ensures { Returns self arg words.now out.old result out.new }
    {
        self.perform(Role::Return, arg, words, out)
    }

    // How the next fixed argument travels.
    pub fn argument(self, arg: Arg, words: &[u64], out: &mut [u64]) -> Answer
        ensures { Passes self arg words.now out.old result out.new }
    {
        self.perform(Role::Argument, arg, words, out)
    }

    // How the next argument after the dots travels.
    pub fn variadic_argument(self, arg: Arg, words: &[u64], out: &mut [u64]) -> Answer
        ensures { PassesVariadic self arg words.now out.old result out.new }
    {
        self.perform(Role::VariadicArgument, arg, words, out)
    }

    #[tactic(auto, using(crate::proofs::Operations::by_void, crate::proofs::Operations::by_scalar, crate::proofs::Operations::by_aggregate))]
    fn perform(self, role: Role, arg: Arg, words: &[u64], out: &mut [u64]) -> Answer
        ensures { parts.Performs (parts.is_return role) (parts.is_after_dots role) self arg words.now out.old result out.new }
    {
        match arg {
            Arg::Void => self.nothing(),
            Arg::Scalar(s) => perform_scalar(self, role, s, out),
            Arg::Aggregate(shape) => perform_aggregate(self, role, shape, words, out),
        }
    }

    // A void return or argument: nothing travels, so the call alone is checked.
    #[tactic(auto, using(crate::proofs::Steps::void_missing, crate::proofs::Steps::void_done))]
    pub fn nothing(self) -> Answer
        ensures { result ≡ void_answer self }
    {
        if self.abi >= abis::DESCRIPTIONS {
            return refused(self, Refusal::BadAbi);
        }
        if let Err(refusal) = check_call(abis::read(self.abi).terms, self) {
            return refused(self, refusal);
        }
        done(self)
    }

    // The three operations for a scalar.
    pub fn returns_scalar(self, s: Scalar, out: &mut [u64]) -> Answer
        ensures { Returns self (parts.scalar_arg s) [] out.old result out.new }
    {
        perform_scalar(self, Role::Return, s, out)
    }

    pub fn argument_scalar(self, s: Scalar, out: &mut [u64]) -> Answer
        ensures { Passes self (parts.scalar_arg s) [] out.old result out.new }
    {
        perform_scalar(self, Role::Argument, s, out)
    }

    pub fn variadic_argument_scalar(self, s: Scalar, out: &mut [u64]) -> Answer
        ensures { PassesVariadic self (parts.scalar_arg s) [] out.old result out.new }
    {
        perform_scalar(self, Role::VariadicArgument, s, out)
    }

    // The three operations for an aggregate.
    pub fn returns_aggregate(self, shape: Shape, words: &[u64], out: &mut [u64]) -> Answer
        ensures { Returns self (parts.aggregate_arg shape) words.now out.old result out.new }
    {
        perform_aggregate(self, Role::Return, shape, words, out)
    }

    pub fn argument_aggregate(self, shape: Shape, words: &[u64], out: &mut [u64]) -> Answer
        ensures { Passes self (parts.aggregate_arg shape) words.now out.old result out.new }
    {
        perform_aggregate(self, Role::Argument, shape, words, out)
    }

    pub fn variadic_argument_aggregate(self, shape: Shape, words: &[u64], out: &mut [u64]) -> Answer
        ensures { PassesVariadic self (parts.aggregate_arg shape) words.now out.old result out.new }
    {
        perform_aggregate(self, Role::VariadicArgument, shape, words, out)
    }

    // What a fixed argument that travels as Memory is aligned to in the argument area.
    #[tactic(auto, using(crate::proofs::Steps::memory_missing, crate::proofs::Steps::memory_refused, crate::proofs::Steps::memory_answered))]
    pub fn in_memory(self, shape: Shape, words: &[u64]) -> Result<u64, Refusal>
        ensures { memory_told result ≡ in_memory_answer self shape words.now }
    {
        if self.abi >= abis::DESCRIPTIONS {
            return Err(Refusal::BadAbi);
        }
        let brief = abis::read(self.abi);
        let terms = brief.terms;
        check_aggregate(terms, self, shape, words)?;
        Ok(stack_align::in_memory(terms, brief.arguments, shape, words))
    }

    pub fn abi(self) -> u64
        ensures { result ≡ self.abi }
    {
        self.abi
    }

    pub fn integer_left(self) -> u64
        ensures { result ≡ self.left.integer }
    {
        self.left.integer
    }

    pub fn float_left(self) -> u64
        ensures { result ≡ self.left.float }
    {
        self.left.float
    }

    pub fn stack(self) -> u64
        ensures { result ≡ self.stack }
    {
        self.stack
    }
}

// ---- an operation, by the number of its description: that is read, or refused; then the checks, and what the terms decide. A scalar's way is
// apart from an aggregate's, whose walk it doesn't need.

#[tactic(auto, using(crate::proofs::Operations::row_missing_refused, crate::proofs::Operations::row_scalar))]
fn perform_scalar(call: Call, role: Role, s: Scalar, out: &mut [u64]) -> Answer
    ensures { parts.Performs (parts.is_return role) (parts.is_after_dots role) call (parts.scalar_arg s) [] out.old result out.new }
{
    if call.abi >= abis::DESCRIPTIONS {
        return refused(call, Refusal::BadAbi);
    }
    let terms = abis::read(call.abi).terms;
    if let Err(refusal) = check_scalar(terms, call, s) {
        return refused(call, refusal);
    }
    let dots = role.dots(terms.variadic);
    scalar_by(terms, role.is_return(), dots, call, s, out)
}

// Read for the checks, and again behind them: what is read is constants, of which the compiler keeps those that are used, so a refusal pays for
// the few that the checks look at. A scalar's terms are few, and are read once.
#[tactic(auto, using(crate::proofs::Operations::row_missing_refused, crate::proofs::Operations::list_ends, crate::proofs::Operations::row_aggregate))]
fn perform_aggregate(call: Call, role: Role, shape: Shape, words: &[u64], out: &mut [u64]) -> Answer
    ensures { parts.Performs (parts.is_return role) (parts.is_after_dots role) call (parts.aggregate_arg shape) words.now out.old result out.new }
{
    if call.abi >= abis::DESCRIPTIONS {
        return refused(call, Refusal::BadAbi);
    }
    if let Err(refusal) = check_aggregate(abis::read(call.abi).terms, call, shape, words) {
        return refused(call, refusal);
    }
    let brief = abis::read(call.abi);
    let terms = brief.terms;
    let list = role.list(brief);
    let dots = role.dots(terms.variadic);
    aggregate_by(terms, list, role.is_return(), dots, call, shape, words, out)
}

// ---- an operation that passed the checks, by a description's terms and one of its lists: decide, room, place, then writing and the answer. Room is
// asked before the place: of a scalar the compiler mostly knows there that it has no slots.
// kept: terms, list, returning and dots as parameters. A scalar has no list and a return no dots, so that a struct of them would hold what half of
// these functions don't read.

fn scalar_by(
    terms: Terms,
    returning: bool,
    dots: Dots,
    call: Call,
    s: Scalar,
    out: &mut [u64],
) -> Answer
    ensures { parts.By terms [] returning dots call (parts.scalar_arg s) [] out.old result out.new }
{
    let decision = decide_scalar(terms, returning, dots, call.left, s);
    if decision.count > slots::room(out.len()) as u64 {
        return refused(call, Refusal::NoRoom);
    }
    match place_scalar(terms, returning, dots, call.stack, s, decision) {
        Ok(place) => {
            slot_writing::write_scalar(decision.source, out);
            accept(call, decision, place)
        }
        Err(refusal) => refused(call, refusal),
    }
}

fn aggregate_by(
    terms: Terms,
    list: Rules,
    returning: bool,
    dots: Dots,
    call: Call,
    shape: Shape,
    words: &[u64],
    out: &mut [u64],
) -> Answer
    requires { Ends (listed list) }
    ensures { parts.By terms (listed list) returning dots call (parts.aggregate_arg shape) words.now out.old result out.new }
{
    let decided = decide_aggregate(terms, list, returning, dots, call.left, shape, words);
    let decision = decided.decision;
    if decision.count > slots::room(out.len()) as u64 {
        return refused(call, Refusal::NoRoom);
    }
    match place_aggregate(
        terms, list, returning, dots, call.stack, shape, words, decision,
    ) {
        Ok(place) => {
            slot_writing::write(decision.source, decided.classes, words, out);
            accept(call, decision, place)
        }
        Err(refusal) => refused(call, refusal),
    }
}

// ---- check

#[tactic(auto, using(checks::proofs::Check::else_number), unfolding(crate::specs::Answers::checked, crate::specs::Answers::arg_refusal))]
fn check_scalar(terms: Terms, call: Call, s: Scalar) -> Result<(), Refusal>
    ensures { refusal_of result ≡ answers.checked terms call (parts.scalar_arg s) [] }
{
    check_call(terms, call)?;
    checks::check_scalar(s)
}

#[tactic(auto, using(checks::proofs::Check::else_number), unfolding(crate::specs::Answers::checked, crate::specs::Answers::arg_refusal))]
fn check_aggregate(terms: Terms, call: Call, shape: Shape, words: &[u64]) -> Result<(), Refusal>
    ensures { refusal_of result ≡ answers.checked terms call (parts.aggregate_arg shape) words.now }
{
    check_call(terms, call)?;
    checks::check_shape(shape, words)
}

// A count above its bank's start, an offset above the limit, or a mark that the description doesn't use. What a good call passes is three
// comparisons and a test for 0.
#[tactic(auto, using(crate::proofs::Steps::mark_is), unfolding(crate::specs::Answers::state_refusal))]
fn check_call(terms: Terms, call: Call) -> Result<(), Refusal>
    ensures { refusal_of result ≡ answers.state_refusal terms call }
{
    let banks = terms.banks;
    let left = call.left;
    if banks.integer < left.integer {
        return Err(Refusal::BadCall);
    }
    if banks.float < left.float {
        return Err(Refusal::BadCall);
    }
    if stack_place::MOST_STACK < call.stack {
        return Err(Refusal::BadCall);
    }
    if left.integers_only == spend::NO_MARK {
        return Ok(());
    }
    if describe::dots_of(terms.variadic).mark {
        return Ok(());
    }
    Err(Refusal::BadCall)
}

// ---- decide

// A decision, with the classes that its slots stand in where they are those of eightbytes.
#[derive(Clone, Copy)]
struct Decided {
    decision: Decision,
    classes: [Class; 8],
}

#[tactic(auto, unfolding(crate::specs::Spending::scalar_by))]
fn decide_scalar(terms: Terms, returning: bool, dots: Dots, left: Left, s: Scalar) -> Decision
    ensures { result ≡ rules.scalar_by terms returning dots left s }
{
    if returning {
        return spend_scalar::scalar_return(terms.scalars, terms.return_pointer, left, s);
    }
    if dots.emptied {
        return Decision::plain(Way::Direct, Spent::NOTHING);
    }
    let skipped = after_dots::skipped(dots, terms.banks, left, s.size, s.align);
    let decision = spend_scalar::scalar_argument(
        terms.banks,
        terms.scalars,
        after_dots::left_for(dots, left, skipped),
        s,
    );
    after_dots::settled(dots, left.integer, skipped, decision)
}

#[tactic(auto, using(crate::proofs::Operations::aggregate_found))]
fn decide_aggregate(
    terms: Terms,
    list: Rules,
    returning: bool,
    dots: Dots,
    left: Left,
    shape: Shape,
    words: &[u64],
) -> Decided
    requires { Ends (listed list) }
    ensures { result ≡ parts.aggregate_decided terms (listed list) returning dots left shape (pieces_of words.now) }
{
    let skipped = after_dots::skipped(dots, terms.banks, left, shape.size, shape.align);
    let found = after_dots::left_for(dots, left, skipped);
    let decided = apply(terms, list, returning, found, shape, words);
    Decided {
        decision: after_dots::settled(dots, left.integer, skipped, decided.decision),
        ..decided
    }
}

// The rule walk: the first rule whose test finds something, and that isn't skipped or short, decides. There is no answer behind the loop: a list
// ends with a rule that decides.
fn apply(
    terms: Terms,
    list: Rules,
    returning: bool,
    left: Left,
    shape: Shape,
    words: &[u64],
) -> Decided
    requires { Ends (listed list) }
    ensures { result ≡ parts.walked terms returning left (listed list) shape (pieces_of words.now) }
{
    for rules in list {
        let matched = find::matches(terms.banks, rows::first_test(rules), shape, words);
        let Some(found) = matched.found else {
            continue;
        };
        if (left.integers_only != spend::NO_MARK) & !returning & (found.floats > 0) {
            continue;
        }
        let tried = spend::travel(
            terms.banks,
            terms.return_pointer,
            returning,
            left,
            rows::first_rule(rules),
            shape.size,
            Wanted {
                count: found.count,
                floats: found.floats,
                source: matched.source,
            },
        );
        if let Some(decision) = tried {
            let classes = matched.classes;
            return Decided { decision, classes };
        }
    }
    unreachable!()
}

// ---- place: what isn't in given registers

#[tactic(auto, unfolding(crate::specs::Stacking::stacked_of, stack_place::specs::Stacked::return_placed, stack_place::specs::Stacked::scalar_placed))]
fn place_scalar(
    terms: Terms,
    returning: bool,
    dots: Dots,
    stack: u64,
    s: Scalar,
    decision: Decision,
) -> Result<Place, Refusal>
    ensures { told stack result ≡ stacked_of terms [] returning dots stack (parts.scalar_arg s) [] decision.way decision.spent decision.count }
{
    if returning {
        return place_return(terms, dots, stack, decision);
    }
    area_of(terms, dots).place_scalar(stack, decision.way, decision.spent, s)
}

// The alignment in memory is looked for only where registers don't hold all of it.
#[tactic(auto, using(crate::proofs::Steps::aggregate_back, crate::proofs::Steps::aggregate_held, crate::proofs::Steps::aggregate_stands))]
fn place_aggregate(
    terms: Terms,
    list: Rules,
    returning: bool,
    dots: Dots,
    stack: u64,
    shape: Shape,
    words: &[u64],
    decision: Decision,
) -> Result<Place, Refusal>
    ensures { told stack result ≡ stacked_of terms (listed list) returning dots stack (parts.aggregate_arg shape) (pieces_of words.now) decision.way decision.spent decision.count }
{
    if returning {
        return place_return(terms, dots, stack, decision);
    }
    let way = decision.way;
    let spent = decision.spent;
    if stack_place::is_held(way, spent, decision.count) {
        return Ok(Place::nowhere(stack));
    }
    let area = area_of(terms, dots);
    let bytes = stack_place::aggregate_bytes(way, spent, decision.count, shape.size, area.width);
    let align = stack_align::in_memory(terms, list, shape, words);
    area.place_aggregate(stack, way, bytes, align)
}

fn place_return(terms: Terms, dots: Dots, stack: u64, decision: Decision) -> Result<Place, Refusal>
    ensures { told stack result ≡ return_placed (area_of terms dots) stack decision.way terms.return_pointer decision.spent }
{
    area_of(terms, dots).place_return(stack, decision.way, terms.return_pointer, decision.spent)
}

fn area_of(terms: Terms, dots: Dots) -> Area
    ensures { result ≡ area_of terms dots }
{
    Area {
        width: terms.banks.integer_width,
        arguments: terms.stack_args,
        dots: dots.emptied,
    }
}

// ---- the answer

// The call that is handed back has what is left after what was spent, and the offset behind what was placed.
fn accept(call: Call, decision: Decision, place: Place) -> Answer
    ensures { result ≡ parts.accepted_by call decision (told call.stack (Ok place)) }
{
    Answer {
        next: Call {
            left: call.left.after(decision.spent),
            stack: place.next,
            ..call
        },
        outcome: Outcome {
            refusal: shape::ACCEPTED,
            way: decision.way.number(),
            spent: decision.spent,
            slots: decision.count,
            stacked: place.stacked,
        },
    }
}

fn refused(call: Call, refusal: Refusal) -> Answer
    ensures { result ≡ answers.refused call (number_of refusal) }
{
    Answer {
        next: call,
        outcome: Outcome {
            refusal: refusal.number(),
            ..Outcome::NOTHING
        },
    }
}

fn done(call: Call) -> Answer
    ensures { result ≡ answers.done call }
{
    Answer {
        next: call,
        outcome: Outcome::NOTHING,
    }
}

// ---- calls

// Nothing is marked, and nothing on the stack.
fn unmarked(abi: u64, integer: u64, float: u64) -> Call
    ensures { result ≡ answers.unmarked abi integer float }
{
    Call {
        abi,
        left: Left {
            integer,
            float,
            integers_only: spend::NO_MARK,
        },
        stack: 0,
    }
}

// What a call to a variadic function has left: marked, where the kind says so.
fn marked(variadic: Variadic, left: Left) -> Left
    ensures { result ≡ parts.marked_by variadic left }
{
    if describe::dots_of(variadic).mark {
        return left.with_mark();
    }
    left
}
