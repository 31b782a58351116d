// A well-formed image and its sizes.
ghost use Rattle.trim_encode.specs.LeftOutBytes.{Lengths, InRange};

use image_header::sizes::Sizes;
use image_index::indexed::Indexed;

// A well-formed image with its index and its sizes, its lengths, and its counts within their types.
#[derive(Clone, Copy)]
pub struct WellFormed<'a, 'b> {
    pub indexed: &'a Indexed<'b, 'b>,
    pub sizes: Sizes,
    ghost lengths: { Lengths sizes indexed.now },
    ghost in_range: { InRange sizes },
}
