// The attribute's name that asks for a convention, written into a lent buffer (REFERENCE 6.4).
ghost use Rattle.std.specs.Prelude.{◌≡◌, length, option_copied};
ghost use Rattle.targets.specs.Decoded.{optional};
ghost use Rattle.attributes.specs.Spellings.{spelling_put, spelling_written, attribute as attribute_of};

use shape::Refusal;
use targets::Convention;
use text::put;

// The name that asks for a convention, written to the front of `out`.
#[tactic(auto, unfolding(crate::specs::Spellings::spelling_put, crate::specs::Spellings::spelling_written))]
pub fn write_attribute(convention: Convention, out: &mut [u8]) -> Result<Option<usize>, Refusal>
    ensures { (result ≡ spelling_put (attribute_of convention) (length out.old)) × (out.new ≡ spelling_written (attribute_of convention) out.old) }
{
    let Some(name) = spelling(convention) else {
        return Ok(None);
    };
    let length = put(name, out)?;
    Ok(Some(length))
}

// No attribute names more than three registers, so a greater number has the name of three.
fn spelling(convention: Convention) -> Option<&'static [u8]>
    ensures { option_copied result ≡ optional (attribute_of convention) }
{
    match convention {
        Convention::Target => None,
        Convention::Ms => Some(b"ms_abi"),
        Convention::Sysv => Some(b"sysv_abi"),
        Convention::Stdcall => Some(b"stdcall"),
        Convention::Fastcall => Some(b"fastcall"),
        Convention::Regparm(0) => Some(b"regparm(0)"),
        Convention::Regparm(1) => Some(b"regparm(1)"),
        Convention::Regparm(2) => Some(b"regparm(2)"),
        Convention::Regparm(_) => Some(b"regparm(3)"),
        Convention::NoCalleeSaved => Some(b"no_callee_saved_registers"),
        Convention::PreserveNone => Some(b"preserve_none"),
    }
}
