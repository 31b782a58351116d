// Why a handover is refused, and its codes.
ghost use Rattle.std.specs.Prelude.{◌≡◌};
ghost use Rattle.handover_spec.specs.Refusal.{number, code_told};

#[derive(Clone, Copy, PartialEq, Eq)]
pub enum Refusal {
    // An image is not accepted, or the two are unlike.
    Unlike,
    // The table is too short, too long or somewhere out of range.
    OutOfRange,
    // A named line does not serve.
    Unserved,
}

impl From<Refusal> for u16 {
    ghost from_gives = { λ refusal code. code ≡ number refusal };

    // Its number on the page.
    fn from(refusal: Refusal) -> u16 {
        match refusal {
            Refusal::Unlike => 32,
            Refusal::OutOfRange => 33,
            Refusal::Unserved => 34,
        }
    }
}

// The code of a handover, 0 where it is permitted.
pub fn code_told(permitted: Result<(), Refusal>) -> u16
    ensures { result ≡ code_told permitted }
{
    match permitted {
        Ok(()) => 0,
        Err(refusal) => u16::from(refusal),
    }
}
