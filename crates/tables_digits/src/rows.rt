// The rows at which an image's formulas are evaluated.
ghost use Rattle.std.specs.Prelude.{◌≤◌};

use crate::value_column::Reading;
use tables_columns::slot::{Slot, Slots};

// The first so many rows, by the leaves in the slots and their last values.
#[derive(Clone, Copy)]
pub struct Rows<'a> {
    pub image: &'a [u8],
    pub reading: Reading,
    pub slots: &'a [Slot; Slots::COUNT],
    pub lasts: &'a [u8; Slots::COUNT],
    pub count: usize,
    ghost few: { count ≤ 4096 },
}
