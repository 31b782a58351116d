// A thread's record: points n, then n - 1 instructions of five or ten bytes each. 0 points count as 1.
#![tactic(auto, using(crate::proofs::ThreadBranches::thread_search))]

ghost use Rattle.std.specs.Prelude.{◌≡◌, ◌<◌, ◌≤◌, ◌-◌, ◌+◌, get_or, drop};
ghost use Rattle.std.specs.Iterator.{YieldsFirst, item_count};
ghost use Rattle.limits.specs.Numbers.{every};
ghost use Rattle.image_header.specs.Instruction.{ranged};
ghost use Rattle.image_header.specs.Thread.{last_point, cut, begins, instructions, nothing, thread_size, numbered, thread_numbers};

use crate::instruction::{
    Instruction, NOTHING, instruction_fits, instruction_size, read_instruction,
};
use crate::sizes::Sizes;
use image_frames::fault::Fault;
use limits::Limits;
use limits::range::byte_within;
use limits::read::{byte_at, rest, u8_at};

// The last point, which is also the number of instructions.
pub fn last_point(body: &[u8]) -> usize
    ensures { (result ≡ last_point body.now) × (result < 256) }
{
    byte_at(body, 0).saturating_sub(1)
}

// The instructions of a thread's record from one of them on.
#[derive(Drop)]
pub struct Instructions<'a> {
    // How many are left.
    left: usize,
    // The bytes from the next one on.
    bytes: &'a [u8],
}

impl<'a> Instructions<'a> {
    // All instructions of the record.
    #[tactic(auto, using(limits::proofs::BranchTests::tests), unfolding(crate::specs::Thread::instructions))]
    pub fn new(body: &'a [u8]) -> Instructions<'a>
        ensures { cut result.left result.bytes.now ≡ instructions body.now }
    {
        Instructions {
            left: last_point(body),
            bytes: rest(body, 1),
        }
    }
}

impl<'a> Iterator for Instructions<'a> {
    type Item = Instruction;

    ghost next_gives = { YieldsFirst (λ s. cut s.left s.bytes.now) };

    ghost remaining = { item_count (λ s. cut s.left s.bytes.now) };

    #[tactic(auto, using(crate::proofs::ThreadBranches::next_branches, limits::proofs::BranchTests::tests))]
    fn next(&mut self) -> Option<Instruction> {
        if self.left == 0 {
            return None;
        }
        let instruction = read_instruction(self.bytes);
        self.bytes = rest(self.bytes, instruction_size(instruction.operation));
        self.left -= 1;
        Some(instruction)
    }
}

// The position at which the instruction at `point` begins in `body`, the bytes after the point count; found by a walk from the first one.
// The bound on `point` stays a clause: points are counted up in loops, so a type with the bound would be made anew at each call.
#[tactic(auto, using(crate::proofs::ThreadBranches::begins_at_branches, limits::proofs::BranchTests::tests))]
pub fn begins_at(body: &[u8], point: usize) -> usize
    requires { point < 256 }
    ensures { (result ≡ begins body.now point) × (result ≤ 2560) }
{
    let mut at = 0;
    for _ in 0..point {
        at += instruction_size(u8_at(body, at));
    }
    at
}

// The position at which the instruction after the one at `point` begins, for a loop; `at` and the result count from the first
// instruction.
pub fn begins_behind(body: &[u8], point: usize, at: usize) -> usize
    requires { (point < 256) × (at ≡ begins (drop 1 body.now) point) }
    ensures { result ≡ begins (drop 1 body.now) (point + 1) }
{
    at + instruction_size(u8_at(rest(body, 1), at))
}

// The instruction at `point`, which begins `at` bytes after the first one; NOTHING where the thread has none.
pub fn instruction_from(body: &[u8], point: usize, at: usize) -> Instruction
    requires { at ≡ begins (drop 1 body.now) point }
    ensures { result ≡ get_or (instructions body.now) point nothing }
{
    if last_point(body) <= point {
        return NOTHING;
    }
    read_instruction(rest(rest(body, 1), at))
}

// The instruction at `point`, found by a walk from the first one; NOTHING where the thread has none.
pub fn instruction_at(body: &[u8], point: usize) -> Instruction
    ensures { result ≡ get_or (instructions body.now) point nothing }
{
    if last_point(body) <= point {
        return NOTHING;
    }
    instruction_from(body, point, begins_at(rest(body, 1), point))
}

// Whether every instruction has its fields in range.
fn instructions_fit(body: &[u8], sizes: Sizes) -> bool
    ensures { result ≡ every (ranged (last_point body.now) sizes) (instructions body.now) }
{
    let last = last_point(body);
    Instructions::new(body).all(|instruction| instruction_fits(instruction, last, sizes))
}

// The length that the record has by its point count and its operations as written.
fn thread_size(body: &[u8]) -> usize
    ensures { result ≡ thread_size body.now }
{
    1 + begins_at(rest(body, 1), last_point(body))
}

// Whether the point count and every field of an instruction are in range.
#[tactic(auto, using(image_frames::proofs::Branches::Checks::joined), unfolding(crate::specs::Thread::numbered))]
fn thread_fits(body: &[u8], sizes: Sizes) -> bool
    ensures { result ≡ numbered sizes body.now }
{
    byte_within(body, 0, 1, Limits::POINTS) && instructions_fit(body, sizes)
}

// Checks the length of a thread's record, then its numbers.
#[tactic(auto, using(image_frames::proofs::Branches::Checks::checked), unfolding(crate::specs::Thread::thread_numbers))]
pub fn check_thread_numbers(body: &[u8], sizes: Sizes) -> Result<(), Fault>
    ensures { result ≡ thread_numbers sizes body.now }
{
    if body.is_empty() || body.len() != thread_size(body) {
        return Err(Fault::Body);
    }
    if !thread_fits(body, sizes) {
        return Err(Fault::Number);
    }
    Ok(())
}
