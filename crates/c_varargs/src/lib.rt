// Where the next scalar of a variable argument list stands (REFERENCE 15.3), for C: each function hands on what it is handed to the one of its
// name in export_varargs, and states its clauses again (docs/DECISIONS.md, "A crate for each operation").
#![tactic(auto)]

ghost use Rattle.std.specs.Prelude.{◌≡◌, length};
ghost use Rattle.shape.specs.Words.{scalar};
ghost use Rattle.varargs.specs.Lists.{located};
ghost use Rattle.export_varargs.specs.Numbers.{offsets_from, part_numbers};

use export_varargs::Part;

// The next scalar of a list whose save area and overflow area are lent.
#[unsafe(no_mangle)]
pub extern "C" fn barkpaddle_read_scalar<'a>(
    save: &'a [u8],
    overflow: &'a [u8],
    gp_offset: u64,
    fp_offset: u64,
    overflow_offset: u64,
    kind: u64,
    size: u64,
    align: u64,
) -> Part
    ensures { result ≡ part_numbers (located (length save.now) (length overflow.now) (offsets_from gp_offset fp_offset overflow_offset) (scalar kind size align)) }
{
    export_varargs::barkpaddle_read_scalar(
        save,
        overflow,
        gp_offset,
        fp_offset,
        overflow_offset,
        kind,
        size,
        align,
    )
}
