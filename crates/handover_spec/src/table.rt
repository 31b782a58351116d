// Whether a handover table has an entry for each old point, each in range; code 33 if not.
ghost use Rattle.std.specs.Prelude.{◌≡◌, ◌≤◌, Ok};
ghost use Rattle.image_frames.specs.Records.{bodies};
ghost use Rattle.image.specs.Decode.{decoded};
ghost use Rattle.image_meaning.specs.Image.{image_of};
ghost use Rattle.handover_spec.specs.Fits.{thread_fits, threads_fit, table_fits};

use crate::entries::{Entry, entries_fit};
use crate::points::{points_before, points_in};
use image_access::outline_point::last_point_of;
use image_access::totals::Counted;
use image_header::sizes::Sizes;
use image_index::indexed::Indexed;

// `Counted` is made of images that no one has decoded, too, so that these are decoded stands in the clauses.
// Whether the entries of thread `t` are in range.
#[tactic(auto, using(crate::proofs::TableBranches::thread_fit, limits::proofs::BranchTests::tests))]
fn thread_fits(old: &Counted, new: &Indexed, new_sizes: Sizes, table: &[u8], t: usize) -> bool
    requires { (decoded old.now.image.now ≡ Ok old.now.sizes) × ((1 ≤ t) × (t ≤ old.now.sizes.threads)) }
    ensures { result ≡ thread_fits (image_of old.now.sizes (bodies old.now.image.now)) (image_of new_sizes (bodies new.now))
        table.now
        t }
{
    let from = points_before(old, t);
    let last = last_point_of(old.image, old.sizes, t);
    let new_last = last_point_of(new, new_sizes, t);
    entries_fit(
        table,
        new_last,
        usize::from(new_sizes.lines),
        from,
        last + 1,
    )
}

// Whether the entries of all threads are in range.
#[tactic(auto, using(crate::proofs::TableBranches::threads_fit_branches, limits::proofs::BranchTests::tests))]
fn threads_fit(old: &Counted, new: &Indexed, new_sizes: Sizes, table: &[u8]) -> bool
    requires { decoded old.now.image.now ≡ Ok old.now.sizes }
    ensures { result ≡ threads_fit (image_of old.now.sizes (bodies old.now.image.now)) (image_of new_sizes (bodies new.now))
        table.now
        old.now.sizes.threads }
{
    for t in 0..usize::from(old.sizes.threads) {
        if !thread_fits(old, new, new_sizes, table, t + 1) {
            return false;
        }
    }
    true
}

// Whether the table has an entry for each old point and nothing else, each in range.
#[tactic(auto, using(crate::proofs::TableBranches::table_fits_branches, limits::proofs::BranchTests::tests))]
pub fn table_fits(old: &Counted, new: &Indexed, new_sizes: Sizes, table: &[u8]) -> bool
    requires { decoded old.now.image.now ≡ Ok old.now.sizes }
    ensures { result ≡ table_fits (image_of old.now.sizes (bodies old.now.image.now)) (image_of new_sizes (bodies new.now))
        table.now }
{
    if table.len() != Entry::SIZE * points_in(old.image.bytes(), old.sizes, old.totals) {
        return false;
    }
    threads_fit(old, new, new_sizes, table)
}
