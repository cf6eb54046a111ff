// Text at a place of a lent buffer that has room for it. Each function answers where the text ends.
ghost use Rattle.std.specs.Prelude.{◌+◌, ◌≤◌, length};
ghost use Rattle.text.specs.Text.{Put};
ghost use Rattle.text.specs.Numbers.{part, most_part};

// A number behind a mark.
pub(crate) fn put_part(out: &mut [u8], at: usize, mark: u8, n: u64) -> usize
    requires { at + most_part ≤ length out.old }
    ensures { Put out.old at (part mark n) result out.new × (result ≤ at + most_part) }
{
    text::append_number(out, at, mark, n)
}

pub(crate) fn put_text(out: &mut [u8], at: usize, bytes: &[u8]) -> usize
    requires { at + length bytes.now ≤ length out.old }
    ensures { Put out.old at bytes.now result out.new }
{
    text::append(out, at, bytes)
}
