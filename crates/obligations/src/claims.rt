// The claims of an image in order, each against the line that it names.
ghost use Rattle.std.specs.Prelude.{◌≡◌, ◌<◌, IfSome};
ghost use Rattle.rules_justified.specs.Marks.{as_marks};
ghost use Rattle.obligations.specs.Claims.{first_denied};

use crate::certificate::Certificate;
use crate::concludes::is_sustained;
use image_access::totals::Counted;
use image_header::sizes::Sizes;
use image_index::indexed::Indexed;

// The number of the first claim that is not sustained, from 0.
#[tactic(auto, using(crate::proofs::ClaimBranches::denied_branches))]
fn denied_of(certificate: &Certificate) -> Option<usize>
    ensures first { result ≡ first_denied certificate.now.records.now.image.now certificate.now.records.now.sizes
        (as_marks certificate.now.marks.now) certificate.now.records.now.sizes.claims 0 }
    ensures within { IfSome result (λ i. i < certificate.now.records.now.sizes.claims) }
{
    for i in 0..usize::from(certificate.records.sizes.claims) {
        if !is_sustained(certificate, i) {
            return Some(i);
        }
    }
    None
}

// The number of the first claim that its line does not prove, from 0.
// The parameters stay apart: docs/PROOFS.md names this function, so it asks for no `Certificate`, which it makes itself.
#[tactic(auto, using(crate::proofs::ClaimBranches::denied_branches))]
pub fn first_denied(image: &Indexed, sizes: Sizes, marks: &[bool]) -> Option<usize>
    ensures first { result ≡ first_denied image.now sizes (as_marks marks.now) sizes.claims 0 }
    ensures within { IfSome result (λ i. i < sizes.claims) }
{
    // Without claims nothing has to be counted.
    if sizes.claims == 0 {
        return None;
    }
    let records = Counted::new(image, sizes);
    denied_of(&Certificate {
        records: &records,
        marks,
    })
}
