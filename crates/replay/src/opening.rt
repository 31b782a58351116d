// The start of a replay on the caller's table.
ghost use Rattle.std.specs.Prelude.{◌≡◌, length, replicate};
ghost use Rattle.image_index.specs.IndexTable.{table_size, index_of};
ghost use Rattle.replay_run.specs.Course.{told, opened_by};

use checker::acceptance::accept_image;
use image_header::sizes::Sizes;
use image_index::indexed::Indexed;
use replay_machine::pick::Refusal;
use replay_machine::replayed::room_of;
use replay_run::course::{Course, open_on, start_threads};
use replay_table::order::no_order;

// The caller lends the index: memory is fixed, and a struct that lends it on would only rename the fact that it is zeros.
// Whether the image is accepted and its start writes have room in a table of `lent` entries. `index` is scratch memory that the caller
// passes as table_size(image) zeros; it gets the image's index.
#[tactic(auto, using(crate::proofs::OpenBranches::open_branches, limits::proofs::BranchTests::tests))]
pub fn open_replay(
    image: &[u8],
    index: &mut [usize],
    trace: &[u8],
    given: &[u8],
    lent: usize,
) -> Course
    requires { index.old ≡ replicate (table_size image.now) 0 }
    ensures { (told result ≡ opened_by image.now (length trace.now) given.now lent)
        × (index.new ≡ index_of image.now) }
{
    match accept_image(image, index) {
        None => Course {
            sizes: Sizes {
                threads: 0,
                words: 0,
                registers: 0,
                range: 0,
                formulas: 0,
                lines: 0,
                claims: 0,
            },
            room: room_of(lent),
            ended: Err(Refusal::Declined),
            steps: 0,
            left: 0,
            begun: 0,
            threads: start_threads(&[], 0, &[]),
            order: no_order(),
        },
        Some(sizes) => {
            let image = Indexed::new(image, index);
            open_on(&image, sizes, trace, given, room_of(lent))
        }
    }
}
