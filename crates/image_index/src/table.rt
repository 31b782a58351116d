// The layout of the index table, and how it is filled: an entry for each record, then those of `starts`.
ghost use Rattle.std.specs.Prelude.{◌≡◌, ◌≤◌, replicate};
ghost use Rattle.image_index.specs.IndexTable.{room, table_size, records_to, index_of};

use crate::starts::{fill_rows, first_thread};
use crate::walk::next_start;
use limits::Limits;

// The sizes of the table and of its parts, in entries.
#[derive(Drop)]
pub struct IndexSize;

impl IndexSize {
    // An image of at most 1,024 bytes has a shorter table, which takes less time to clear: 512 records at most, since a record has at
    // least two bytes.
    pub const SHORT_IMAGE: usize = 1024;

    pub const SHORT_RECORDS: usize = 512;

    // The entries after the records: the number of the first thread's record, then for each thread and point where the instruction
    // begins.
    pub const STARTS: usize = 1 + Limits::THREADS * Limits::POINTS;

    pub const SHORT: usize = IndexSize::SHORT_RECORDS + IndexSize::STARTS;

    pub const LONG: usize = Limits::RECORDS + IndexSize::STARTS;
}

// The number of records that the table of this image has entries for.
#[tactic(auto, using(crate::proofs::IndexBranches::room_for_branches, limits::proofs::BranchTests::tests))]
pub fn room_for(image: &[u8]) -> usize
    ensures { (result ≡ room image.now) × (result ≤ 4523) }
{
    if image.len() <= IndexSize::SHORT_IMAGE {
        IndexSize::SHORT_RECORDS
    } else {
        Limits::RECORDS
    }
}

// Writes the entries of the records into a zeroed table. It stops at the image's end: the other entries are 0 already.
// Zeroed stays a clause: the table is the caller's array (fixed memory), and a type for it would write it once more.
#[tactic(auto, using(crate::proofs::IndexBranches::fill_records_search))]
fn fill_records<'a, 'b>(image: &'a [u8], index: &'b mut [usize], n: usize)
    requires { (index.old ≡ replicate (table_size image.now) 0) × (n ≡ room image.now) }
    ensures { index.new ≡ records_to image.now n }
{
    let mut at = 0;
    for i in 0..n {
        if image.len() <= at {
            return;
        }
        index[i] = image.len() - at;
        at = next_start(image, at);
    }
}

// Fills the index of an image; `index` is a zeroed table of table_size(image) entries.
#[tactic(auto, using(crate::proofs::IndexBranches::fill_index_search))]
pub fn fill_index<'a, 'b>(image: &'a [u8], index: &'b mut [usize])
    requires { index.old ≡ replicate (table_size image.now) 0 }
    ensures { index.new ≡ index_of image.now }
{
    let n = room_for(image);
    fill_records(image, index, n);
    let first = first_thread(image, n);
    index[n] = first.number;
    fill_rows(image, index, n + 1, first.position);
}
