// The entries, exported by c_questions, that ask and change nothing of a call, in numbers and slices (REFERENCE 13.2 to 13.5): what a value in the argument area
// is aligned to, pieces and records, descriptions, targets, the header's version. Each but the last answers what the function behind it answers.
#![tactic(auto)]

mod alignment;
mod descriptions;
mod lookups;
mod members;
mod version;

pub use alignment::barkpaddle_in_memory;
pub use descriptions::{
    Description, RuleNumbers, barkpaddle_argument_rule, barkpaddle_description, barkpaddle_name,
    barkpaddle_return_rule, barkpaddle_scalar_is_by_reference,
    barkpaddle_scalar_returns_by_reference, barkpaddle_wide_integer_returns_in,
};
pub use lookups::{
    barkpaddle_asked, barkpaddle_attribute, barkpaddle_callee_pops, barkpaddle_for_convention,
    barkpaddle_for_target,
};
pub use members::{RecordNumbers, barkpaddle_pieces, barkpaddle_record};
pub use version::barkpaddle_version;
