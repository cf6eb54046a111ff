// A record: 48 bytes, six little-endian words.
ghost use Rattle.std.specs.Prelude.{◌≡◌};
ghost use Rattle.sheet_records.specs.Records.{record_of};

use words::word_at;

// Bytes of a record.
pub const RECORD: usize = 48;

#[derive(Clone, Copy)]
pub struct Record {
    pub first: u64,
    pub second: u64,
    pub third: u64,
    pub fourth: u64,
    pub fifth: u64,
    pub sixth: u64,
}

#[tactic(auto, unfolding(crate::specs::Records::record_of))]
pub(crate) fn record_of(bytes: &[u8]) -> Record
    ensures { result ≡ record_of bytes.now }
{
    Record {
        first: word_at(bytes, 0),
        second: word_at(bytes, 8),
        third: word_at(bytes, 16),
        fourth: word_at(bytes, 24),
        fifth: word_at(bytes, 32),
        sixth: word_at(bytes, 40),
    }
}
