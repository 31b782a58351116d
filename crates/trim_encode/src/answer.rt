// What a caller of trimming is told.
ghost use Rattle.std.specs.Prelude.{◌≡◌};
ghost use Rattle.trim_encode.specs.Answer.{code_of, length_of};

// Why an image is not trimmed: it is not accepted, or the buffer is shorter than the trimmed image.
#[derive(Clone, Copy, PartialEq, Eq)]
pub enum Untrimmed {
    NotAccepted,
    Short,
}

// The code of an answer, for a caller in C.
pub fn code_told(answer: Result<usize, Untrimmed>) -> u16
    ensures { result ≡ code_of answer }
{
    match answer {
        Ok(_) => 0,
        Err(Untrimmed::NotAccepted) => 24,
        Err(Untrimmed::Short) => 25,
    }
}

// The length of the trimmed image, for a caller in C; 0 with an error.
pub fn length_told(answer: Result<usize, Untrimmed>) -> usize
    ensures { result ≡ length_of answer }
{
    answer.unwrap_or(0)
}
