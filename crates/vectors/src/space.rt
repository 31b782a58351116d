// Space for the body of a case.
ghost use Rattle.std.specs.Prelude.{◌≡◌, length};
ghost use Rattle.vectors.specs.Space.{space_bytes};

use limits::Limits;

// The size of the space.
#[derive(Drop)]
pub struct Space;

impl Space {
    // Two images, each with a byte more than it may have.
    pub const BYTES: usize = 2 * (Limits::IMAGE_BYTES + 1);
}

// The space, filled with zeros.
pub fn space_for_body() -> [u8; Space::BYTES]
    ensures { space_bytes ≡ length result }
{
    [0; Space::BYTES]
}
