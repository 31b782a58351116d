// Which formulas may be used in an outline or a triple. Many lines may name one formula, so the test is made once per formula, and a
// look-up takes the same time however long the formula is.
ghost use Rattle.std.specs.Prelude.{◌≡◌};
ghost use Rattle.image_frames.specs.Records.{bodies};
ghost use Rattle.image_bodies.specs.ListBody.{outlined_at};
ghost use Rattle.image_bodies.specs.OutlineFormulas.{entries, outlined_of};

use crate::formula_use::is_outlined;
use image_header::sizes::Sizes;
use image_index::indexed::Indexed;
use limits::Limits;

// The number of entries that are filled: one per formula and the header's, at most as many as the table has.
#[tactic(auto, unfolding(crate::specs::OutlineFormulas::entries))]
fn entry_count(sizes: Sizes) -> usize
    ensures { result ≡ entries sizes }
{
    usize::from(sizes.formulas).min(Limits::FORMULAS) + 1
}

// The formulas of an image, each tested once.
#[derive(Clone, Copy)]
pub struct Outlined<'a> {
    pub image: &'a Indexed<'a, 'a>,
    pub sizes: Sizes,
    // Entry k says whether formula k is an assertion without start. Entry 0 belongs to the header, which is body 0.
    pub on: [bool; Limits::FORMULAS + 1],
    pub ghost tested: { on ≡ outlined_of sizes (bodies image.now) },
}

impl<'a> Outlined<'a> {
    #[tactic(auto, using(crate::proofs::Outlined::outlined_of_branches))]
    pub fn new(image: &'a Indexed<'a, 'a>, sizes: Sizes) -> Outlined<'a>
        ensures bytes { result.image.now ≡ image.now }
        ensures counts { result.sizes ≡ sizes }
    {
        let mut on = [false; Limits::FORMULAS + 1];
        for k in 0..entry_count(sizes) {
            on[k] = is_outlined(image.body_of(k));
        }
        Outlined { image, sizes, on }
    }

    // Whether formula `number` is an assertion without start: from the table, or from the body for a number that has no entry.
    #[tactic(auto, unfolding(crate::specs::ListBody::outlined_at))]
    pub fn formula_outlined(&self, number: usize) -> bool
        ensures { result ≡ outlined_at (bodies self.now.image.now) number }
    {
        if number < entry_count(self.sizes) {
            return self.on[number];
        }
        is_outlined(self.image.body_of(number))
    }
}
