// Pieces and records from their members, in numbers.
ghost use Rattle.std.specs.Prelude.{◌≡◌};
ghost use Rattle.layouts.specs.Members.{pieces_answer, pieces_written};
ghost use Rattle.layouts.specs.Record.{record_answer};
ghost use Rattle.export_questions.specs.Answers.{count_told, record_numbers};

use export_numbers::Told;

// A refusal, or the shape of a record.
#[repr(C)]
#[derive(Clone, Copy, Default)]
pub struct RecordNumbers {
    pub refusal: u64,
    pub size: u64,
    pub align: u64,
    pub complex: u64,
    pub floating: u64,
}

// Each member, three words of a scalar, at the next offset that it fits, as pieces at the front of the buffer; how many.
pub fn barkpaddle_pieces(members: &[u64], pieces: &mut [u64]) -> Told
    ensures { (result ≡ count_told (pieces_answer members.now pieces.old)) × (pieces.new ≡ pieces_written members.now pieces.old) }
{
    Told::from(layouts::pieces(members, pieces))
}

// The record that these pieces make.
pub fn barkpaddle_record(words: &[u64]) -> RecordNumbers
    ensures { result ≡ record_numbers (record_answer words.now) }
{
    match layouts::record(words) {
        Ok(shape) => RecordNumbers {
            refusal: shape::ACCEPTED,
            size: shape.size,
            align: shape.align,
            complex: u64::from(shape.complex),
            floating: u64::from(shape.floating),
        },
        Err(refusal) => RecordNumbers {
            refusal: refusal.number(),
            ..RecordNumbers::default()
        },
    }
}
