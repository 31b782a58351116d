// The frame of one record: its length and its kind.
ghost use Rattle.std.specs.Prelude.{◌≡◌, length, drop};
ghost use Rattle.image_frames.specs.Frames.{admit, frame};

use crate::fault::Fault;
use crate::kind::{Kind, order_of};
use limits::read::u16_at;

// What the walk over the frames has seen: the last record's kind, by its place in the order, and the number of records of each kind.
#[derive(Clone, Copy)]
pub struct Seen {
    pub last: usize,
    pub count: [u16; 8],
}

// Checks that a record whose kind has place `place` in the order may follow: the last kind again or the next one, and not too often.
#[tactic(auto, using(limits::proofs::BranchTests::tests), unfolding(crate::specs::Frames::admit, crate::specs::Kinds::most))]
pub fn admit_kind(last: usize, count: &[u16], place: usize) -> Result<(), Fault>
    requires { length count.now ≡ 8 }
    ensures { result ≡ admit (record { last = last; count = count.now }) place }
{
    if Kind::LAST < place || place < last || 1 < place - last {
        return Err(Fault::Kind);
    }
    if count[place] < Kind::MOST[place] {
        return Ok(());
    }
    Err(Fault::Kind)
}

// Checks the frame of the record at position `at`: its length, then its kind after the records seen so far.
#[tactic(auto, using(crate::proofs::Branches::Frame::frame_at_branches, limits::proofs::BranchTests::tests))]
pub fn frame_at<'a, 'b>(
    image: &'a [u8],
    at: usize,
    last: usize,
    count: &'b [u16],
) -> Result<(), Fault>
    requires { length count.now ≡ 8 }
    ensures { result ≡ frame (record { last = last; count = count.now }) (drop at image.now) }
{
    if image.len() <= at || image.len() - at < 2 {
        return Err(Fault::Length);
    }
    let n = u16_at(image, at);
    if n < 2 || image.len() - at - 2 < n {
        return Err(Fault::Length);
    }
    admit_kind(last, count, order_of(u16_at(image, at + 2)))
}
