// Bytes of text, written into a lent buffer: the one way that names leave (REFERENCE 5.5, 6.4), and that a sheet's lines are made.
#![tactic(auto)]

ghost use Rattle.std.specs.Prelude.{◌≡◌, [], ◌∷◌, ◌+◌, ◌<◌, ◌≤◌, length, drop, position, ◌==◌};
ghost use Rattle.text.specs.Text.{told, put_answer, put_written, append_end, up_to_dot, end_from, dot, Put};
ghost use Rattle.text.specs.Numbers.{decimal, decimal_in, digit_of, most_digits, number_end, number_written};
ghost use Rattle.shape.specs.Words.{put_at};

use shape::Refusal;

// The digits of the largest 64-bit number.
const DIGITS: u64 = 20;

// The bytes of the longest number behind its mark.
pub const MOST_PART: usize = 1 + DIGITS as usize;

// The bytes go to the front of `out`, where they all fit; how many they are. A refusal writes nothing.
pub fn put(bytes: &[u8], out: &mut [u8]) -> Result<usize, Refusal>
    ensures { (told result ≡ put_answer bytes.now (length out.old)) × (out.new ≡ put_written bytes.now out.old) }
{
    if bytes.len() > out.len() {
        return Err(Refusal::NoRoom);
    }
    Ok(append(out, 0, bytes))
}

// The bytes go to a place of `out`, where they all fit behind it; the place behind them. What doesn't fit is left out whole.
pub fn append(out: &mut [u8], at: usize, bytes: &[u8]) -> usize
    ensures { (result ≡ append_end (length out.old) at bytes.now) × (out.new ≡ put_at out.old at bytes.now) }
{
    if at > out.len() {
        return at;
    }
    if bytes.len() > out.len() - at {
        return at;
    }
    // kept: byte by byte, since copy_from_slice of a length that isn't known is a call of memmove, which the archive is to do without (README.md).
    let mut i = 0;
    while i < bytes.len() {
        out[at + i] = bytes[i];
        i += 1;
    }
    at + bytes.len()
}

// Texts of unlike lengths can stand in one, each filled up with dots: the one that starts at a place goes to a place of `out`, up to its first
// dot.
pub fn append_up_to_dot(out: &mut [u8], at: usize, texts: &[u8], start: usize) -> usize
    ensures { (result ≡ append_end (length out.old) at (up_to_dot (drop start texts.now))) × (out.new ≡ put_at out.old at (up_to_dot (drop start texts.now))) }
{
    if start > texts.len() {
        return at;
    }
    let end = end_of(texts, start);
    append(out, at, &texts[start..end])
}

// Where the text that starts at a place ends: at the next dot.
pub fn end_of(texts: &[u8], start: usize) -> usize
    ensures { result ≡ end_from texts.now start }
{
    let Some(text) = texts.get(start..) else {
        return start;
    };
    start + first_dot(text).unwrap_or(text.len())
}

fn first_dot(text: &[u8]) -> Option<usize>
    ensures { result ≡ position (λ b. b == dot) text.now }
{
    text.iter().position(|b| *b == b'.')
}

// A number goes to a place of `out`, in decimal digits behind a mark; the place behind them. It is left out where the longest number wouldn't fit,
// so that no digit is counted before it is written.
pub fn append_number(out: &mut [u8], at: usize, mark: u8, n: u64) -> usize
    ensures { (result ≡ number_end (length out.old) at mark n) × (out.new ≡ number_written out.old at mark n) }
{
    if out.len() < MOST_PART {
        return at;
    }
    if at > out.len() - MOST_PART {
        return at;
    }
    let to = put_byte(out, at, mark);
    put_decimal(out, to, n)
}

// Most numbers have one digit: these are spared the call.
fn put_decimal(out: &mut [u8], at: usize, n: u64) -> usize
    requires { at + most_digits ≤ length out.old }
    ensures { Put out.old at (decimal n) result out.new }
{
    if n < 10 {
        return put_byte(out, at, digit(n));
    }
    put_digits(out, at, n, DIGITS)
}

// The digits of a number, the last so many where it has more.
fn put_digits(out: &mut [u8], at: usize, n: u64, digits: u64) -> usize
    requires { at + digits ≤ length out.old }
    ensures { Put out.old at (decimal_in digits n) result out.new × (result ≤ at + digits) }
{
    if digits == 0 {
        return at;
    }
    if n < 10 {
        return put_byte(out, at, digit(n));
    }
    let to = put_digits(out, at, n / 10, digits - 1);
    put_byte(out, to, digit(n % 10))
}

fn digit(n: u64) -> u8
    requires { n < 10 }
    ensures { result ≡ digit_of n }
{
    b'0' + n as u8
}

fn put_byte(out: &mut [u8], at: usize, b: u8) -> usize
    requires { at + 1 ≤ length out.old }
    ensures { Put out.old at (b ∷ []) result out.new }
{
    out[at] = b;
    at + 1
}
