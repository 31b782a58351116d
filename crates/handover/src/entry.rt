// The entry point `check_handover`, for C and Rust.
ghost use Rattle.std.specs.Prelude.{◌≡◌, replicate, Ok, Some};
ghost use Rattle.image_index.specs.IndexTable.{table_size};
ghost use Rattle.image.specs.Decode.{decoded};
ghost use Rattle.checker_spec.specs.Acceptance.{acceptance};
ghost use Rattle.handover_spec.specs.Code.{by_acceptance};
ghost use Rattle.handover_spec.specs.Promise.{Promise};
ghost use Rattle.handover_spec.specs.Refusal.{code_told};

use crate::permit::handover_code;
use checker::acceptance::accept_image;
use handover_spec::refusal::{Refusal, code_told};
use image_header::sizes::Sizes;
use image_index::indexed::Indexed;
use image_index::table::IndexSize;

// The caller lends the index: memory is fixed, and a struct that lends it on would only rename the fact that it is zeros.
// Whether a handover from an accepted image is permitted, with `new_index` as scratch memory: zeros, table_size(new) of them.
#[tactic(auto, using(handover_spec::proofs::PermittedRuns::new_by, limits::proofs::BranchTests::tests))]
fn code_by(
    old: &Indexed,
    sizes: Sizes,
    new: &[u8],
    new_index: &mut [usize],
    table: &[u8],
) -> Result<(), Refusal>
    requires { (decoded old.now ≡ Ok sizes) × (new_index.old ≡ replicate (table_size new.now) 0) }
    ensures { code_told result ≡ by_acceptance old.now new.now table.now (Some sizes)
        (acceptance new.now) }
{
    match accept_image(new, new_index) {
        None => Err(Refusal::Unlike),
        Some(new_sizes) => {
            let new = Indexed::new(new, new_index);
            handover_code(old, sizes, &new, new_sizes, table)
        }
    }
}

// Whether a handover from an accepted image, whose sizes are known, is permitted.
#[tactic(auto, using(handover_spec::proofs::PermittedRuns::zeros))]
fn code_from(old: &Indexed, sizes: Sizes, new: &[u8], table: &[u8]) -> Result<(), Refusal>
    requires { decoded old.now ≡ Ok sizes }
    ensures { code_told result ≡ by_acceptance old.now new.now table.now (Some sizes)
        (acceptance new.now) }
{
    if new.len() <= IndexSize::SHORT_IMAGE {
        let mut new_index = [0usize; IndexSize::SHORT];
        return code_by(old, sizes, new, &mut new_index, table);
    }
    let mut new_index = [0usize; IndexSize::LONG];
    code_by(old, sizes, new, &mut new_index, table)
}

// Whether a handover is permitted, with `old_index` as scratch memory: zeros, table_size(old) of them.
#[tactic(auto, using(handover_spec::proofs::PermittedRuns::old_by, limits::proofs::BranchTests::tests))]
fn permit_by(old: &[u8], old_index: &mut [usize], new: &[u8], table: &[u8]) -> Result<(), Refusal>
    requires { old_index.old ≡ replicate (table_size old.now) 0 }
    ensures { Promise old.now new.now table.now (code_told result) }
{
    match accept_image(old, old_index) {
        None => Err(Refusal::Unlike),
        Some(sizes) => {
            let old = Indexed::new(old, old_index);
            code_from(&old, sizes, new, table)
        }
    }
}

// Whether a handover is permitted.
#[tactic(auto, using(handover_spec::proofs::PermittedRuns::zeros))]
fn permit(old: &[u8], new: &[u8], table: &[u8]) -> Result<(), Refusal>
    ensures { Promise old.now new.now table.now (code_told result) }
{
    if old.len() <= IndexSize::SHORT_IMAGE {
        let mut old_index = [0usize; IndexSize::SHORT];
        return permit_by(old, &mut old_index, new, table);
    }
    let mut old_index = [0usize; IndexSize::LONG];
    permit_by(old, &mut old_index, new, table)
}

// The parameters are those of the C interface, include/hidokpalu.h.
// Permits or refuses the handover from the old image to the new one by a table: for each old point, threads in order, a new point (byte)
// and a line of the new image (16 bits). Returns 32 if an image is not accepted or their headers differ; 33 if the table is too short, too
// long or anywhere out of range; 34 if a named line is no justified implication from the old point's assertion to the new one's. Code 0
// means that after every run of the old code, the handover and every run of the new code each thread's new assertion at its point is true.
#[unsafe(no_mangle)]
pub extern "C" fn check_handover(old: &[u8], new: &[u8], table: &[u8]) -> u16
    ensures { Promise old.now new.now table.now result }
{
    code_told(permit(old, new, table))
}
