// The entry point, for C and Rust.
ghost use Rattle.checker_spec.specs.Promise.{Promise};

use crate::judge::judge;
use verdict_record::output::{Output, report};
use verdict_record::record::VerdictRecord;

// Judges the image and writes the verdict's record to the buffer. For every byte string and every buffer: a buffer of fewer than 22 bytes
// is left as it is, and 1 is returned; else the verdict's code is returned, and the bytes after the record stay. Code 0 means that the
// image's outline is true in every run of its program, and that no claim's threads are ever at its points together.
#[unsafe(no_mangle)]
pub extern "C" fn check_image(image: &[u8], out: &mut [u8]) -> u16
    ensures { Promise image.now out.old result out.new }
{
    if out.len() < VerdictRecord::SIZE {
        return Output::SHORT;
    }
    report(judge(image), out)
}
