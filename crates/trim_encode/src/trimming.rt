// What is trimmed, and what stays of it.
ghost use Rattle.std.specs.Prelude.{◌≡◌};

use crate::numbering::Renumbering;
use crate::well_formed::WellFormed;

// A well-formed image, and what stays of its formulas and lines with their new numbers.
#[derive(Drop)]
pub struct Trimming<'a, 'b, 'c> {
    pub image: WellFormed<'a, 'b>,
    pub formulas: Renumbering<'c>,
    pub lines: Renumbering<'c>,
}

impl<'a, 'b, 'c> Trimming<'a, 'b, 'c> {
    pub(crate) fn new(
        image: WellFormed<'a, 'b>,
        formulas: Renumbering<'c>,
        lines: Renumbering<'c>,
    ) -> Trimming<'a, 'b, 'c>
        ensures image_is { result.image ≡ image.entry }
        ensures formulas_are { result.formulas ≡ formulas.entry }
        ensures lines_are { result.lines ≡ lines.entry }
    {
        Trimming {
            image,
            formulas,
            lines,
        }
    }
}
