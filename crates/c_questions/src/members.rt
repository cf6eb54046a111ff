// Pieces and records from their members (REFERENCE 13.3).
ghost use Rattle.std.specs.Prelude.{◌≡◌};
ghost use Rattle.layouts.specs.Members.{pieces_answer, pieces_written};
ghost use Rattle.layouts.specs.Record.{record_answer};
ghost use Rattle.export_questions.specs.Answers.{count_told, record_numbers};

use export_numbers::Told;
use export_questions::RecordNumbers;

// Each member, three words of a scalar, at the next offset that it fits, as pieces at the front of the buffer; how many.
#[unsafe(no_mangle)]
pub extern "C" fn barkpaddle_pieces(members: &[u64], pieces: &mut [u64]) -> Told
    ensures { (result ≡ count_told (pieces_answer members.now pieces.old)) × (pieces.new ≡ pieces_written members.now pieces.old) }
{
    export_questions::barkpaddle_pieces(members, pieces)
}

// The record that these pieces make.
#[unsafe(no_mangle)]
pub extern "C" fn barkpaddle_record(words: &[u64]) -> RecordNumbers
    ensures { result ≡ record_numbers (record_answer words.now) }
{
    export_questions::barkpaddle_record(words)
}
