// Totals over the threads of an image, computed once for all look-ups.
ghost use Rattle.std.specs.Prelude.{◌≡◌, ◌-◌, ◌≤◌};
ghost use Rattle.image_frames.specs.Records.{bodies};
ghost use Rattle.image_bodies.specs.PointCounts.{point_counts_to};
ghost use Rattle.image_access.specs.Totals.{points_before, totals_of};

use image_bodies::point_counts::{obligations_by, point_counts_of};
use image_header::sizes::Sizes;
use image_header::thread::last_point;
use image_index::indexed::Indexed;
use limits::Limits;

// The points of all threads, those before each thread, and the obligations.
#[derive(Clone, Copy)]
pub struct Totals {
    pub points: usize,
    // The points of the threads before thread t, at index t - 1.
    pub before: [usize; Limits::THREADS],
    pub obligations: usize,
}

// The points of the threads before thread `t`: the point counts of an image with only those threads.
// `1 ≤ t` stays a clause, and image and sizes stay apart: `Counted` is made from what this function counts.
#[tactic(auto, using(crate::proofs::Places::totals_branches))]
fn points_before(image: &Indexed, sizes: Sizes, t: usize) -> usize
    requires { (1 ≤ t) × (t ≤ sizes.threads) }
    ensures { result ≡ (point_counts_to sizes (bodies image.now) (t - 1)).points }
{
    let before = Sizes {
        threads: (t - 1) as u8,
        ..sizes
    };
    point_counts_of(image, before).points
}

// For each thread that an image may have, the points of the threads before it.
#[tactic(auto, using(crate::proofs::Places::totals_branches), unfolding(crate::specs::Totals::points_before))]
fn before_each(image: &Indexed, sizes: Sizes) -> [usize; Limits::THREADS]
    ensures { result ≡ points_before sizes (bodies image.now) }
{
    let mut before = [0; Limits::THREADS];
    let mut sum = 0;
    for t in 0..Limits::THREADS {
        before[t] = sum;
        sum += last_point(image.body_of(usize::from(sizes.formulas) + t + 1)) + 1;
    }
    before
}

// The totals of an image.
#[tactic(auto, using(crate::proofs::Places::totals_branches))]
fn totals_of(image: &Indexed, sizes: Sizes) -> Totals
    ensures { result ≡ totals_of sizes (bodies image.now) }
{
    let counts = point_counts_of(image, sizes);
    Totals {
        points: counts.points,
        before: before_each(image, sizes),
        obligations: obligations_by(sizes.threads, counts),
    }
}

// An image with its totals.
#[derive(Drop)]
pub struct Counted<'a> {
    pub image: &'a Indexed<'a, 'a>,
    pub sizes: Sizes,
    pub totals: Totals,
    pub ghost counted: { totals ≡ totals_of sizes (bodies image.now) },
}

impl<'a> Counted<'a> {
    pub fn new(image: &'a Indexed<'a, 'a>, sizes: Sizes) -> Counted<'a>
        ensures bytes { result.image.now ≡ image.now }
        ensures counts { result.sizes ≡ sizes }
    {
        Counted {
            image,
            sizes,
            totals: totals_of(image, sizes),
        }
    }

    // The points of the threads before thread `t`. No image has more threads than the totals hold; the last line serves sizes that no
    // image has.
    #[tactic(auto, using(crate::proofs::Places::totals_branches))]
    pub fn before_thread(&self, t: usize) -> usize
        requires { (1 ≤ t) × (t ≤ self.now.sizes.threads) }
        ensures { result ≡ (point_counts_to self.now.sizes (bodies self.now.image.now) (t - 1)).points }
    {
        if t <= Limits::THREADS {
            return self.totals.before[t - 1];
        }
        points_before(self.image, self.sizes, t)
    }
}
