// The body of a claim, with its line renumbered.
ghost use Rattle.std.specs.Prelude.{length};
ghost use Rattle.trim_spec.specs.Encode.{claim_bytes};
ghost use Rattle.trim_spec.specs.Parse.{claim_record};
ghost use Rattle.trim_encode.specs.Renumbered.{renewed_claim};
ghost use Rattle.trim_encode.specs.Writing.{Puts, Room};

use crate::numbering::new_number;
use crate::writer::Writer;
use limits::read::{u8_at, u16_at};

// Writes a claim's body: its threads and points as they are, its line by the table of new numbers.
pub fn put_claim(lines: &[usize], body: &[u8], writer: &mut Writer)
    requires { Room writer.old (length (claim_bytes (renewed_claim lines.now (claim_record body.now)))) }
    ensures { Puts writer.old writer.new (claim_bytes (renewed_claim lines.now (claim_record body.now))) }
{
    let line = u16_at(body, 4);
    writer.put_byte(u8_at(body, 0));
    writer.put_five(
        u8_at(body, 1),
        u8_at(body, 2),
        u8_at(body, 3),
        new_number(lines, line),
    );
}
