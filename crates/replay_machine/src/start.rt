// The start state: a write for each word, all views on these, registers at 0 or as the caller gives them, every thread at point 0.
ghost use Rattle.std.specs.Prelude.{◌≡◌};
ghost use Rattle.replay_machine.specs.Start.{start_memory, start_register, start_registers, started};

use crate::locals::Registers;
use crate::state::Machine;
use image_header::header::{is_cleared, start_value};
use limits::read::u8_at;
use replay_memory::memory::Memory;
use replay_memory::view::start_view;
use replay_memory::write::start_write;
use replay_memory::write_table::Places;

// The memory at the start; `body` is that of the header. Each row has one write; the places after the eight rows are not read.
#[tactic(auto, using(crate::proofs::StartBranches::start_memory_branches, limits::proofs::BranchTests::tests))]
fn start_memory(body: &[u8]) -> Memory
    ensures { result ≡ start_memory body.now }
{
    let none = start_write(0);
    let view = start_view();
    let mut writes = [none; Places::COUNT];
    for j in 0..Places::COUNT {
        writes[j] = start_write(start_value(body, j + 1));
    }
    Memory {
        sizes: [1; 8],
        writes,
        views: [view; 4],
    }
}

// The value of the register with index `i`: 0 if it starts there, else what is given, modulo the range. With range 0, which stands for an
// image that is not accepted, it is 0. No index is above 255; that test bounds the sum without a precondition.
#[tactic(auto, using(crate::proofs::StartBranches::register_ways), unfolding(crate::specs::Start::start_register))]
fn start_register(body: &[u8], range: u8, given: &[u8], i: usize) -> u8
    ensures { result ≡ start_register body.now range given.now i }
{
    if range == 0 || 255 < i || is_cleared(body, i + 1) {
        return 0;
    }
    u8_at(given, i) % range
}

// All registers at the start.
#[tactic(auto, using(crate::proofs::StartBranches::start_registers_branches, limits::proofs::BranchTests::tests))]
pub fn start_registers(body: &[u8], range: u8, given: &[u8]) -> Registers
    ensures { result ≡ start_registers body.now range given.now }
{
    let mut at = [0u8; 16];
    for i in 0..16 {
        at[i] = start_register(body, range, given, i);
    }
    Registers { at }
}

// The start state by the header's body; `given` has a byte for each register.
#[tactic(auto, using(crate::proofs::StartBranches::machine_made, limits::proofs::BranchTests::tests))]
pub fn start_machine(body: &[u8], range: u8, given: &[u8]) -> Machine
    ensures { result ≡ started body.now range given.now }
{
    Machine {
        memory: start_memory(body),
        registers: start_registers(body, range, given),
        points: [0; 4],
    }
}
