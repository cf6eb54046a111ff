// Attributes (REFERENCE 6.4): which convention a name asks for, and the name that asks for a convention. Architectures, systems and conventions
// come as codes; a code that isn't known answers none, also where the lookup would not read it.
#![tactic(auto)]

mod asking;
mod spellings;

ghost use Rattle.std.specs.Prelude.{◌≡◌, length};
ghost use Rattle.targets.specs.Decoded.{optional};
ghost use Rattle.attributes.specs.Answers.{convention_asked, code_asked, attribute_put, attribute_written};

pub use asking::by_name;
use shape::Refusal;
pub use spellings::write_attribute;
use targets::{Architecture, Convention, System};

// The code of the convention that an attribute's name asks for on a target. MSVC changes nothing here; a target is passed whole all the same.
pub fn asked(architecture: u64, system: u64, msvc: bool, name: &[u8]) -> Option<u64>
    ensures { result ≡ optional (code_asked (convention_asked architecture system msvc name.now)) }
{
    let architecture = Architecture::try_from(architecture).ok()?;
    let system = System::try_from(system).ok()?;
    by_name(architecture, system, name)
}

// The name of the attribute that asks for a convention, written to the front of `out`.
#[tactic(auto, unfolding(crate::specs::Spellings::spelling_put, crate::specs::Spellings::spelling_written))]
pub fn attribute(convention: u64, out: &mut [u8]) -> Result<Option<usize>, Refusal>
    ensures { (result ≡ attribute_put convention (length out.old)) × (out.new ≡ attribute_written convention out.old) }
{
    let Ok(convention) = Convention::try_from(convention) else {
        return Ok(None);
    };
    write_attribute(convention, out)
}
