// The line of text for what was read from the input.
ghost use Rattle.std.specs.Prelude.{◌≡◌, ◌≤◌, take, IfOk};
ghost use Rattle.verdict_record.specs.Text.{room};
ghost use Rattle.verdict.specs.Line.{line_of, line_for, Answers, Answered};

use checker::judge::judge_within;
use input::{Filled, fill};
use limits::Limits;
use limits::read::part;
use std::io;
use std::io::Read;
use verdict_record::text::{Text, text_of};
use verdict_record::verdict::fields_of;

// The line of the verdict on the image. The program refuses images above 65,535 bytes, a lower limit than the library's.
#[tactic(auto, using(crate::proofs::Lines::line_branches))]
fn line_of(image: &[u8]) -> Text
    ensures { (take result.len result.bytes ≡ line_of image.now) × (result.len ≤ room) }
{
    text_of(fields_of(judge_within(image, Limits::PROGRAM_BYTES)))
}

// The line for exactly the bytes that came.
#[tactic(auto, using(crate::proofs::Lines::line_branches))]
fn line_for(filled: Filled, buf: &[u8]) -> Text
    ensures { (take result.len result.bytes ≡ line_for filled buf.now) × (result.len ≤ room) }
{
    match filled {
        Filled::Full => line_of(buf),
        Filled::Ended(n) => line_of(part(buf, 0, n)),
    }
}

// Reads the input into the buffer and returns the line for it, or the error of the read that failed. Then nothing is judged, and what the
// buffer holds is not said.
pub fn answer<R: Read>(reader: &mut R, buf: &mut [u8]) -> io::Result<Text>
    ensures told { Answered result buf.new }
    ensures line { IfOk result (λ text. Answers buf.new (take text.len text.bytes) × (text.len ≤ room)) }
{
    let filled = fill(reader, buf)?;
    Ok(line_for(filled, buf))
}
