// An image with as many records as its sizes say.
ghost use Rattle.std.specs.Prelude.{◌≡◌, length};
ghost use Rattle.image_frames.specs.Records.{bodies};
ghost use Rattle.image.specs.Decode.{record_count};
ghost use Rattle.trim_encode.specs.LeftOutBytes.{InRange};

use image_header::sizes::Sizes;
use image_index::indexed::Indexed;

// An image with its index and its sizes, which has as many records as these say. Marking what stays asks no more of an image.
#[derive(Clone, Copy)]
pub struct Recorded<'a, 'b> {
    pub indexed: &'a Indexed<'b, 'b>,
    pub sizes: Sizes,
    ghost records: { length (bodies indexed.now) ≡ record_count sizes },
    // This holds of all sizes, by the types of their fields.
    ghost in_range: { InRange sizes },
}
