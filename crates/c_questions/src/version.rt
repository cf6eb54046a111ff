// Which header goes with the library (REFERENCE 13.6).
ghost use Rattle.std.specs.Prelude.{◌≡◌};
ghost use Rattle.export_questions.specs.Answers.{header_version};

// The version of the header that this library was built with: a program compares it with that of the header that it was compiled with.
#[unsafe(no_mangle)]
pub extern "C" fn barkpaddle_version() -> u64
    ensures { result ≡ header_version }
{
    export_questions::barkpaddle_version()
}
