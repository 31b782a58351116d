// The entry point `trim_image`, for C and Rust.
ghost use Rattle.trim.specs.Promise.{Promise};

use crate::trimming::trim_into;
use trim_encode::answer::{code_told, length_told};

// The parameters are those of the C interface, include/hidokpalu.h.
// Trims an accepted image into `out` and stores its length in `written`. Returns 0; 24 if the image is not accepted; else 25 if `out` is
// shorter than the trimmed image. With an error `written` is 0 and `out` stays as it was.
#[unsafe(no_mangle)]
pub extern "C" fn trim_image(image: &[u8], out: &mut [u8], written: &mut usize) -> u16
    ensures { Promise image.now out.old result written.new out.new }
{
    let answer = trim_into(image, out);
    *written = length_told(answer);
    code_told(answer)
}
