// The walk over all frames of an image, first to last.
ghost use Rattle.std.specs.Prelude.{◌≡◌};
ghost use Rattle.image_frames.specs.Frames.{ended, frames, whole_image};

use crate::fault::{Fault, Refusal};
use crate::frame::{Seen, frame_at};
use crate::kind::{Kind, order_of};
use limits::Limits;
use limits::read::u16_at;

// The number of records of each kind that may repeat.
#[derive(Clone, Copy)]
pub struct RecordCounts {
    pub formulas: u16,
    pub threads: u16,
    pub lines: u16,
    pub claims: u16,
}

// The result where the image ends and record `i` would come next: a missing kind is a fault of that record.
#[tactic(auto, using(limits::proofs::BranchTests::tests), unfolding(crate::specs::Frames::ended))]
fn end_of(i: usize, seen: Seen) -> Result<RecordCounts, Refusal>
    ensures { result ≡ ended i seen }
{
    if seen.last < Kind::OBLIGATIONS {
        return Err(Refusal {
            fault: Fault::Kind,
            record: i,
        });
    }
    Ok(RecordCounts {
        formulas: seen.count[Kind::FORMULA],
        threads: seen.count[Kind::THREAD],
        lines: seen.count[Kind::LINE],
        claims: seen.count[Kind::LAST],
    })
}

// Checks all frames; record `i` is at position `at`. No `for`: each record says how far it is to the next one.
#[tactic(auto, using(crate::proofs::Branches::Walk::walk_frames_branches, limits::proofs::BranchTests::tests))]
fn walk_frames(image: &[u8]) -> Result<RecordCounts, Refusal>
    ensures { result ≡ frames image.now }
{
    let mut seen = Seen {
        last: 0,
        count: [0; 8],
    };
    let mut at: usize = 0;
    let mut i: usize = 1;
    while at < image.len() {
        frame_at(image, at, seen.last, &seen.count).map_err(|fault| Refusal { fault, record: i })?;
        let place = order_of(u16_at(image, at + 2));
        seen.count[place] += 1;
        seen.last = place;
        at += 2 + u16_at(image, at);
        i += 1;
    }
    end_of(i, seen)
}

// Checks the size of the image, then all its frames.
#[tactic(auto, using(limits::proofs::BranchTests::tests), unfolding(crate::specs::Frames::whole_image))]
pub fn read_frames(image: &[u8]) -> Result<RecordCounts, Refusal>
    ensures { result ≡ whole_image image.now }
{
    if image.is_empty() || Limits::IMAGE_BYTES < image.len() {
        return Err(Refusal {
            fault: Fault::Size,
            record: 0,
        });
    }
    walk_frames(image)
}
