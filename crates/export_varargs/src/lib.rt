// The entry, exported by c_varargs, that reads a variable argument list, in numbers and slices (REFERENCE 15.3): where the next scalar stands, and the offsets
// after it. An entry can't hand out a part of what it is lent, so the answer says which bytes of which area it is.
#![tactic(auto)]

ghost use Rattle.std.specs.Prelude.{◌≡◌, length};
ghost use Rattle.shape.specs.Words.{scalar};
ghost use Rattle.varargs.specs.Lists.{located};
ghost use Rattle.export_varargs.specs.Numbers.{offsets_from, part_numbers};

use shape::{ACCEPTED, Scalar};
use varargs::Offsets;

// Where a scalar stands, or the refusal.
#[repr(C)]
#[derive(Clone, Copy)]
pub struct Part {
    pub refusal: u64,
    pub area: u64,
    pub start: u64,
    pub length: u64,
    pub gp_offset: u64,
    pub fp_offset: u64,
    pub overflow_offset: u64,
}

// The next scalar of a list whose save area and overflow area are lent.
pub fn barkpaddle_read_scalar<'a>(
    save: &'a [u8],
    overflow: &'a [u8],
    gp_offset: u64,
    fp_offset: u64,
    overflow_offset: u64,
    kind: u64,
    size: u64,
    align: u64,
) -> Part
    ensures { result ≡ part_numbers (located (length save.now) (length overflow.now) (offsets_from gp_offset fp_offset overflow_offset) (scalar kind size align)) }
{
    let at = Offsets {
        integer: gp_offset,
        float: fp_offset,
        overflow: overflow_offset,
    };
    match varargs::find(save, overflow, at, Scalar { kind, size, align }) {
        Ok(found) => Part {
            refusal: ACCEPTED,
            area: found.area.number(),
            start: found.start,
            length: found.length,
            gp_offset: found.next.integer,
            fp_offset: found.next.float,
            overflow_offset: found.next.overflow,
        },
        // where it is refused: no bytes, and the offsets that were handed in
        Err(refusal) => Part {
            refusal: refusal.number(),
            area: varargs::area_number(None),
            start: 0,
            length: 0,
            gp_offset,
            fp_offset,
            overflow_offset,
        },
    }
}
