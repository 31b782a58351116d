// Stored handovers: both images and the handover table as the body, lengths and code as the tail.
ghost use Rattle.std.specs.Prelude.{◌≡◌};
ghost use Rattle.handover_spec.specs.Promise.{Promise};
ghost use Rattle.vectors.specs.Parts.{first_in, second_in, third_on};
ghost use Rattle.vectors_calls.specs.Judge.{same_code, HandedOver};

use handover::entry::check_handover;
use limits::read::u16_at;
use vectors::counters::{Counters, with_case};
use vectors::parts::{part_in, part_on};

// Makes the stored call.
#[tactic(auto, using(crate::proofs::HandedOver::call_stored, limits::proofs::BranchTests::tests))]
fn code_of_stored(body: &[u8], bytes: &[u8]) -> u16
    ensures { Promise (first_in bytes.now body.now) (second_in bytes.now body.now)
        (third_on bytes.now body.now) result }
{
    check_handover(
        part_in(body, bytes, 0),
        part_in(body, bytes, 1),
        part_on(body, bytes, 2),
    )
}

#[tactic(auto, using(limits::proofs::BranchTests::tests), unfolding(crate::specs::Judge::same_code))]
fn same_code(code: u16, bytes: &[u8]) -> bool
    ensures { result ≡ same_code code bytes.now }
{
    usize::from(code) == u16_at(bytes, 8)
}

// The counters with one handover more, by its code, and whether that is the stored one.
// Counters and both parts of a case are passed one by one: a struct of them would be made and taken apart for each case.
#[tactic(auto, using(crate::proofs::HandedOver::handover_counted, limits::proofs::BranchTests::tests))]
pub fn with_handover(counters: Counters, body: &[u8], bytes: &[u8]) -> Counters
    ensures { HandedOver body.now bytes.now counters result }
{
    let code = code_of_stored(body, bytes);
    with_case(counters, usize::from(code), same_code(code, bytes))
}
