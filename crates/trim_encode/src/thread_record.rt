// The body of a thread, with its formulas renumbered.
ghost use Rattle.std.specs.Prelude.{map, length};
ghost use Rattle.image_header.specs.Thread.{instructions};
ghost use Rattle.trim_spec.specs.Encode.{instruction_bytes, thread_bytes};
ghost use Rattle.trim_encode.specs.Renumbered.{renewed_instruction};
ghost use Rattle.trim_encode.specs.Writing.{Puts, Room};

use crate::numbering::new_number;
use crate::writer::Writer;
use image_header::instruction::{Instruction, is_twofold};
use image_header::thread::{instruction_at, last_point};
use limits::read::u8_at;

// Writes an instruction, and its second half where its operation has one.
fn put_instruction(formulas: &[usize], instruction: Instruction, writer: &mut Writer)
    requires { Room writer.old (length (instruction_bytes (renewed_instruction formulas.now instruction))) }
    ensures { Puts writer.old writer.new (instruction_bytes (renewed_instruction formulas.now instruction)) }
{
    writer.put_five(
        instruction.operation,
        instruction.a,
        instruction.b,
        new_number(formulas, instruction.formula),
    );
    if is_twofold(instruction.operation) {
        let half = instruction.second;
        writer.put_five(
            half.operation,
            half.a,
            half.b,
            new_number(formulas, half.formula),
        );
    }
}

// Writes a thread's body: its number of points, where 0 is read as 1, and its instructions.
pub fn put_thread(formulas: &[usize], body: &[u8], writer: &mut Writer)
    requires { Room writer.old (length (thread_bytes (map (renewed_instruction formulas.now) (instructions body.now)))) }
    ensures { Puts writer.old writer.new (thread_bytes (map (renewed_instruction formulas.now) (instructions body.now))) }
{
    writer.put_byte(u8_at(body, 0).max(1));
    for point in 0..last_point(body) {
        put_instruction(formulas, instruction_at(body, point), writer);
    }
}
