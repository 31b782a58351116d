// The verdict written into the caller's buffer.
ghost use Rattle.std.specs.Prelude.{◌≡◌, ◌++◌, ◌≤◌, length, drop};
ghost use Rattle.verdict_record.specs.Record.{size};
ghost use Rattle.verdict_record.specs.Output.{code_for, bytes_for};

use crate::record::{Record, VerdictRecord, record_of};
use crate::verdict::{Verdict, fields_of};

// The code that stands in for a verdict that cannot be written.
#[derive(Drop)]
pub struct Output;

impl Output {
    // Code 1: the buffer is shorter than the record.
    pub const SHORT: u16 = 1;
}

// Writes the record to the front of the buffer; the bytes after it stay.
fn write_record(bytes: Record, out: &mut [u8])
    requires { size ≤ length out.old }
    ensures { out.new ≡ bytes.bytes ++ drop size out.old }
{
    out[..VerdictRecord::SIZE].copy_from_slice(&bytes.bytes);
}

// Writes the verdict's record to the buffer, which has room for it, and returns the verdict's code.
#[tactic(auto, using(crate::proofs::VerdictBranches::report_branches, limits::proofs::BranchTests::tests))]
pub fn report(verdict: Verdict, out: &mut [u8]) -> u16
    requires { size ≤ length out.old }
    ensures { (result ≡ code_for verdict out.old) × (out.new ≡ bytes_for verdict out.old) }
{
    let fields = fields_of(verdict);
    let code = fields.code;
    write_record(record_of(fields), out);
    code
}
