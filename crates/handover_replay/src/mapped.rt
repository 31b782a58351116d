// The state at the handover: the same memory, views and registers, and mapped points.
ghost use Rattle.std.specs.Prelude.{◌≡◌, Ok};
ghost use Rattle.image.specs.Decode.{decoded};
ghost use Rattle.handover_replay.specs.JoinedRun.{mapped_point, handed_over};

use handover_spec::entries::point_named;
use handover_spec::points::points_before;
use image_access::totals::Counted;
use image_header::sizes::Sizes;
use image_index::indexed::Indexed;
use replay_machine::state::Machine;

// `Counted` is made of images that no one has decoded, too, so that these are decoded stands in the clauses.
// The new point of thread `t`, counted from 0, for the old `point`; a thread that does not exist has point 0.
#[tactic(auto, using(crate::proofs::JoinedBranches::mapped_branches, limits::proofs::BranchTests::tests))]
fn mapped_point(old: &Counted, table: &[u8], t: u8, point: u8) -> u8
    requires { decoded old.now.image.now ≡ Ok old.now.sizes }
    ensures { result ≡ mapped_point old.now.image.now old.now.sizes table.now t point }
{
    if old.sizes.threads <= t {
        return 0;
    }
    let n = points_before(old, usize::from(t) + 1);
    point_named(table, n + usize::from(point)) as u8
}

// The machine after the handover: the table maps the points, and everything else stays.
#[tactic(auto, using(crate::proofs::JoinedBranches::handed_so, limits::proofs::BranchTests::tests))]
pub fn hand_over(old: &Indexed, sizes: Sizes, table: &[u8], machine: Machine) -> Machine
    requires { decoded old.now ≡ Ok sizes }
    ensures { result ≡ handed_over old.now sizes table.now machine }
{
    let records = Counted::new(old, sizes);
    let p = machine.points;
    let memory = machine.memory;
    let registers = machine.registers;
    Machine {
        memory,
        registers,
        points: [
            mapped_point(&records, table, 0, p[0]),
            mapped_point(&records, table, 1, p[1]),
            mapped_point(&records, table, 2, p[2]),
            mapped_point(&records, table, 3, p[3]),
        ],
    }
}
