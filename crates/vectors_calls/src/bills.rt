// Stored bills: an image as the body, what it is billed by and its bill as the tail.
ghost use Rattle.std.specs.Prelude.{◌≡◌};
ghost use Rattle.bill_spec.specs.Promise.{Written};
ghost use Rattle.vectors.specs.BillAnswer.{tariff_at, billed_at, room};
ghost use Rattle.vectors_calls.specs.Judge.{Billed};

use bill::into::bill_into;
use vectors::bill_answer::{Room, billed_at, lent_at, same_answer, tariff_at};
use vectors::counters::{Counters, with_case};

// Makes the stored call.
#[tactic(auto, using(crate::proofs::Billed::call_stored, limits::proofs::BranchTests::tests))]
fn bill_stored(image: &[u8], bytes: &[u8], answer: &mut [u32]) -> u16
    ensures { Written image.now (tariff_at bytes.now) (billed_at bytes.now) answer.old result
        answer.new }
{
    bill_into(image, tariff_at(bytes), billed_at(bytes), answer)
}

// The buffer for the bill's numbers before the call.
#[tactic(auto, unfolding(vectors::specs::BillAnswer::room))]
fn blank_room() -> [u32; Room::NUMBERS]
    ensures { result ≡ room }
{
    [Room::BLANK; Room::NUMBERS]
}

// The counters with one bill more, by its code, and whether it is the stored one.
#[tactic(auto, using(crate::proofs::Billed::with_bill_branches, limits::proofs::BranchTests::tests))]
pub fn with_bill(counters: Counters, image: &[u8], bytes: &[u8]) -> Counters
    ensures { Billed image.now bytes.now counters result }
{
    let mut lent = blank_room();
    let n = lent_at(bytes);
    let code = bill_stored(image, bytes, &mut lent[..n]);
    let same = same_answer(code, &lent, bytes);
    with_case(counters, usize::from(code), same)
}
