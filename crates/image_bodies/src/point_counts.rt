// The number of points and of obligations of an image.
ghost use Rattle.std.specs.Prelude.{◌≡◌, ◌≤◌, ◌+◌, ◌*◌};
ghost use Rattle.image_frames.specs.Records.{bodies};
ghost use Rattle.image_header.specs.Thread.{last_point, instructions};
ghost use Rattle.image_bodies.specs.PointCounts.{branches, thread_counts, plus, point_counts, Small, obligations_by, obligation_count};

use image_header::instruction::Instruction;
use image_header::sizes::Sizes;
use image_header::thread::{Instructions, last_point};
use image_index::indexed::Indexed;

// Sums over threads: points, obligations by own steps (classes 2 and 3), actions (instructions that are no branch), and points times own
// actions.
#[derive(Clone, Copy)]
pub struct PointCounts {
    pub points: usize,
    pub steps: usize,
    pub actions: usize,
    pub own: usize,
}

// The number of branches in a thread's body.
fn branches_of(body: &[u8]) -> usize
    ensures { (result ≡ branches (instructions body.now)) × (result ≤ last_point body.now) }
{
    Instructions::new(body)
        .filter(|instruction| instruction.operation == Instruction::BRANCH)
        .count()
}

// The counts of one thread.
#[tactic(auto, using(crate::proofs::Counts::sums), unfolding(crate::specs::PointCounts::thread_counts))]
pub fn thread_counts(body: &[u8]) -> PointCounts
    ensures { (result ≡ thread_counts body.now) × Small 1 result }
{
    let last = last_point(body);
    let n = branches_of(body);
    PointCounts {
        points: last + 1,
        steps: last + n,
        actions: last - n,
        own: (last + 1) * (last - n),
    }
}

// The sums of two counts, field by field.
fn both(counts: PointCounts, other: PointCounts) -> PointCounts
    requires { Small 256 counts × Small 1 other }
    ensures { result ≡ plus counts other }
{
    PointCounts {
        points: counts.points + other.points,
        steps: counts.steps + other.steps,
        actions: counts.actions + other.actions,
        own: counts.own + other.own,
    }
}

// The counts of all threads of an image, summed.
#[tactic(auto, using(crate::proofs::Counts::sums), unfolding(crate::specs::PointCounts::point_counts_to))]
pub fn point_counts_of(image: &Indexed, sizes: Sizes) -> PointCounts
    ensures { (result ≡ point_counts sizes (bodies image.now)) × Small 256 result }
{
    let mut c = PointCounts {
        points: 0,
        steps: 0,
        actions: 0,
        own: 0,
    };
    for t in 0..usize::from(sizes.threads) {
        let body = image.body_of(usize::from(sizes.formulas) + t + 1);
        c = both(c, thread_counts(body));
    }
    c
}

// The number of obligations of `threads` threads with these counts: one start per thread (class 1), the steps (2 and 3), and each point
// with each action of another thread (4).
#[tactic(auto, using(crate::proofs::Counts::sums))]
pub fn obligations_by(threads: u8, counts: PointCounts) -> usize
    requires { Small 256 counts × (counts.own ≤ counts.points * counts.actions) }
    ensures { result ≡ obligations_by threads counts }
{
    usize::from(threads) + counts.steps + (counts.points * counts.actions - counts.own)
}

// The number of obligations of an image.
#[tactic(auto, using(crate::proofs::Counts::sums), unfolding(crate::specs::PointCounts::obligation_count))]
pub fn count_obligations(image: &Indexed, sizes: Sizes) -> usize
    ensures { result ≡ obligation_count sizes (bodies image.now) }
{
    let counts = point_counts_of(image, sizes);
    obligations_by(sizes.threads, counts)
}
