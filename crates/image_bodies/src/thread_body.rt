// A thread's record: its numbers, then the formulas of its instructions, then the registers that it names.
ghost use Rattle.std.specs.Prelude.{◌≡◌, Bool};
ghost use Rattle.limits.specs.Numbers.{every};
ghost use Rattle.image_frames.specs.Records.{bodies};
ghost use Rattle.image_header.specs.Thread.{instructions};
ghost use Rattle.image_bodies.specs.ThreadBody.{wanted, formula_sorted, sorted, target, register_owned, formula_owned, owned, result_absent, thread_registers, thread};

use crate::formula_use::is_plain_of;
use formula::code::Place;
use formula_compare::has::{has_foreign, has_register};
use image_frames::fault::Fault;
use image_header::header::{owner_of, owners_of};
use image_header::instruction::Instruction;
use image_header::sizes::Sizes;
use image_header::thread::{Instructions, check_thread_numbers};
use image_index::indexed::Indexed;
use limits::Limits;

// The sort that an operation's formula must have: a test for a branch, else a value.
#[tactic(auto, unfolding(crate::specs::ThreadBody::wanted))]
fn expected_sort(operation: u8) -> u8
    ensures { result ≡ wanted operation }
{
    if operation == Instruction::BRANCH {
        return Place::TEST;
    }
    Place::VALUE
}

// Whether formula `number` is one of this sort over registers alone; true for 0, which is no formula.
#[tactic(auto, unfolding(crate::specs::ThreadBody::formula_sorted))]
fn formula_sorted(image: &Indexed, sort: u8, number: usize) -> bool
    ensures { result ≡ formula_sorted (bodies image.now) sort number }
{
    number == 0 || is_plain_of(image.body_of(number), sort)
}

// Whether the formulas of both halves have the sort that their operation needs.
#[tactic(auto, unfolding(crate::specs::ThreadBody::sorted))]
fn instruction_sorted(image: &Indexed, instruction: Instruction) -> bool
    ensures { result ≡ sorted (bodies image.now) instruction }
{
    formula_sorted(
        image,
        expected_sort(instruction.operation),
        instruction.formula,
    ) && formula_sorted(image, Place::VALUE, instruction.second.formula)
}

// The register that an instruction sets by itself, not by its second half; 0 for none.
#[tactic(auto, unfolding(crate::specs::ThreadBody::target))]
fn target_of(instruction: Instruction) -> u8
    ensures { result ≡ target instruction }
{
    match instruction.operation {
        ..=Instruction::ACQUIRE | Instruction::ASSIGN_TWO.. => instruction.a,
        Instruction::EXCHANGE | Instruction::FETCH_ADD => instruction.b,
        _ => 0,
    }
}

// Whether thread `t` owns register `r`; true for 0, which is no register.
#[tactic(auto, unfolding(crate::specs::ThreadBody::register_owned))]
fn register_owned(image: &Indexed, t: u8, r: u8) -> bool
    ensures { result ≡ register_owned (bodies image.now) t r }
{
    r == 0 || owner_of(image.body_of(0), usize::from(r)) == usize::from(t)
}

// Whether thread `t` owns every register in formula `number`; true for 0, which is no formula.
#[tactic(auto, unfolding(crate::specs::ThreadBody::formula_owned))]
fn formula_owned(image: &Indexed, t: u8, number: usize) -> bool
    ensures { result ≡ formula_owned (bodies image.now) t number }
{
    if number == 0 {
        return true;
    }
    let owners = owners_of(image.body_of(0));
    !has_foreign(image.body_of(number), 0, Limits::NESTING, t, owners)
}

// Whether thread `t` owns every register that both halves name.
#[tactic(auto, unfolding(crate::specs::ThreadBody::owned))]
fn instruction_owned(image: &Indexed, t: u8, instruction: Instruction) -> bool
    ensures { result ≡ owned (bodies image.now) t instruction }
{
    register_owned(image, t, target_of(instruction))
        && formula_owned(image, t, instruction.formula)
        && register_owned(image, t, instruction.second.a)
        && formula_owned(image, t, instruction.second.formula)
}

// Whether the operand of an exchange or a fetch-add lacks its result register; true for any other operation.
#[tactic(auto, unfolding(crate::specs::ThreadBody::result_absent))]
fn result_absent(image: &Indexed, instruction: Instruction) -> bool
    ensures { result ≡ result_absent (bodies image.now) instruction }
{
    if instruction.operation <= Instruction::BRANCH
        || Instruction::FETCH_ADD < instruction.operation
    {
        return true;
    }
    let body = image.body_of(instruction.formula);
    !has_register(body, 0, Limits::NESTING, instruction.b)
}

// Whether every instruction passes the test.
fn every_instruction<F: Fn(Instruction) -> bool>(body: &[u8], test: F) -> bool
    requires { (i : Instruction) → F.pre test i }
    ensures { (passes : Instruction → Bool) → ((i : Instruction) → (answer : Bool) → F.post test i answer → answer ≡ passes i)
        → result ≡ every passes (instructions body.now) }
{
    Instructions::new(body).all(test)
}

// Checks the registers that the instructions name: another thread's is code 9, a result register in its own operand code 23.
#[tactic(auto, unfolding(crate::specs::ThreadBody::thread_registers, image_frames::specs::Fault::unless))]
fn check_registers(image: &Indexed, t: u8, body: &[u8]) -> Result<(), Fault>
    ensures { result ≡ thread_registers (bodies image.now) t body.now }
{
    if !every_instruction(body, |i| instruction_owned(image, t, i)) {
        return Err(Fault::Owner);
    }
    if !every_instruction(body, |i| result_absent(image, i)) {
        return Err(Fault::Operand);
    }
    Ok(())
}

// Checks the record of thread `t`: its numbers (codes 5 and 6), the sorts of its formulas (8), its registers (9, then 23).
// Image and sizes stay apart, since the clause names both by themselves, and a struct would lengthen it.
#[tactic(auto, unfolding(crate::specs::ThreadBody::thread, image_frames::specs::Fault::unless, image_frames::specs::Fault::also))]
pub fn check_thread(image: &Indexed, sizes: Sizes, t: u8, body: &[u8]) -> Result<(), Fault>
    ensures { result ≡ thread sizes (bodies image.now) t body.now }
{
    check_thread_numbers(body, sizes)?;
    if !every_instruction(body, |i| instruction_sorted(image, i)) {
        return Err(Fault::Sort);
    }
    check_registers(image, t, body)
}
