// A record that is a list of numbers: the outline and the obligations record.
ghost use Rattle.std.specs.Prelude.{◌≡◌};
ghost use Rattle.image_bodies.specs.NumberList.{exactly};

use image_frames::fault::Fault;
use limits::range::numbers_within;

// Checks that `body` is `n` numbers from `low` to `high` and nothing else. The first test bounds 2 * n without a precondition.
#[tactic(auto, unfolding(crate::specs::NumberList::exactly, image_frames::specs::Fault::unless))]
pub fn check_list(body: &[u8], n: usize, low: usize, high: usize) -> Result<(), Fault>
    ensures { result ≡ exactly n low high body.now }
{
    if body.len() < n || body.len() != 2 * n {
        return Err(Fault::Body);
    }
    if !numbers_within(body, n, low, high) {
        return Err(Fault::Number);
    }
    Ok(())
}
