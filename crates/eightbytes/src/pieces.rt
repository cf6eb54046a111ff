// One piece at a time: whether it fits in a shape's eightbytes (docs/REFERENCE.md, 8).
ghost use Rattle.std.specs.Prelude.{◌≡◌};
ghost use Rattle.eightbytes.specs.Reach.{aligned as aligned·, fits as fits·};

use shape::Piece;

pub const EIGHTBYTE: u64 = 8;

// Whether a piece stands where its alignment asks and reaches past none of the eightbytes: the psABI sends what is packed to memory, and
// behind the last eightbyte is no class.
#[tactic(auto, unfolding(crate::specs::Reach::fits))]
pub fn fits(n: usize, p: Piece) -> bool
    ensures { result ≡ fits· n p }
{
    aligned(p) & ((p.end() - 1) / EIGHTBYTE < n as u64)
}

// A bit-field has an alignment of 1: it may start anywhere, and is an integer wherever it does.
fn aligned(p: Piece) -> bool
    ensures { result ≡ aligned· p }
{
    if p.align <= 1 {
        return true;
    }
    p.offset % p.align == 0
}
