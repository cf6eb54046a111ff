// Which header goes with the library.
ghost use Rattle.std.specs.Prelude.{◌≡◌};
ghost use Rattle.export_questions.specs.Answers.{header_version};

// The version of include/barkpaddle.h, raised by every change of the header (REFERENCE 13.6).
const HEADER_VERSION: u64 = 7;

// The version of the header that this library was built with: a program compares it with that of the header that it was compiled with.
pub fn barkpaddle_version() -> u64
    ensures { result ≡ header_version }
{
    HEADER_VERSION
}
