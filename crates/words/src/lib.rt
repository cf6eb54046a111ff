// Words of 64 bits from bytes, the lowest byte first, as a sheet has them (docs/REFERENCE.md, 11).
#![tactic(auto)]

ghost use Rattle.std.specs.Prelude.{◌≡◌};
ghost use Rattle.words.specs.Packed.{word_at, unpacked};

// Bytes of a word.
pub const WORD: usize = 8;

// The words of the bytes, in the place of the first of `words`: as many whole ones as there are, and no more than have room.
pub fn unpack(bytes: &[u8], words: &mut [u64])
    ensures { words.new ≡ unpacked bytes.now words.old }
{
    let mut rest = bytes;
    for word in words.iter_mut() {
        let Some((first, others)) = rest.split_first_chunk::<WORD>() else {
            return;
        };
        *word = u64::from_le_bytes(*first);
        rest = others;
    }
}

// The word that starts at a place of the bytes: 0 where no whole word is left there.
pub fn word_at(bytes: &[u8], at: usize) -> u64
    ensures { result ≡ word_at bytes.now at }
{
    let Some(rest) = bytes.get(at..) else {
        return 0;
    };
    let Some(word) = rest.first_chunk::<WORD>() else {
        return 0;
    };
    u64::from_le_bytes(*word)
}
