// The position of a formula in the image.
ghost use Rattle.std.specs.Prelude.{◌≡◌};
ghost use Rattle.image_access.specs.AccessPlaces.{body_start, formula_at};

use image_index::indexed::Indexed;

// The position of the body of the record at `at`: after its length and its kind; the image's end if there is no record.
#[tactic(auto, unfolding(crate::specs::AccessPlaces::body_start))]
fn body_start(image: &[u8], at: usize) -> usize
    ensures { result ≡ body_start image.now at }
{
    if image.len() <= at {
        return image.len();
    }
    at + 4
}

// The position of formula `number`; the end of the image where there is none.
#[tactic(auto, unfolding(crate::specs::AccessPlaces::formula_at))]
pub fn formula_at(image: &Indexed, number: usize) -> usize
    ensures { result ≡ formula_at image.now number }
{
    if number == 0 {
        return image.bytes().len();
    }
    body_start(image.bytes(), image.place_of(number))
}
