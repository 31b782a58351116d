// The body of a certificate line, with its formulas and premises renumbered.
ghost use Rattle.std.specs.Prelude.{length};
ghost use Rattle.trim_spec.specs.Encode.{line_bytes};
ghost use Rattle.trim_spec.specs.Parse.{line_record};
ghost use Rattle.trim_encode.specs.Renumbered.{renewed_line};
ghost use Rattle.trim_encode.specs.Writing.{Puts, Room};

use crate::numbering::new_number;
use crate::writer::Writer;
use limits::read::{byte_at, rest, u8_at, u16_at};

// Writes a line's body: rule, thread and point as they are, its formulas and premises by the tables of new numbers.
pub fn put_line(formulas: &[usize], lines: &[usize], body: &[u8], writer: &mut Writer)
    requires { Room writer.old (length (line_bytes (renewed_line formulas.now lines.now (line_record body.now)))) }
    ensures { Puts writer.old writer.new
        (line_bytes (renewed_line formulas.now lines.now (line_record body.now))) }
{
    let left = u16_at(body, 3);
    let right = u16_at(body, 5);
    writer.put_five(
        u8_at(body, 0),
        u8_at(body, 1),
        u8_at(body, 2),
        new_number(formulas, left),
    );
    writer.put_u16(new_number(formulas, right));
    writer.put_byte(u8_at(body, 7));
    writer.put_numbers(lines, rest(body, 8), byte_at(body, 7));
}
