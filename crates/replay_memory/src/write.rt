// Writes as values.
ghost use Rattle.std.specs.Prelude.{◌≡◌};
ghost use Rattle.replay_memory.specs.Write.{start_write};

use crate::view::{View, start_view};

// A write: a value, a releasing mark, a covered mark, and the view stored with it.
#[derive(Clone, Copy)]
pub struct Write {
    pub value: u8,
    pub releasing: bool,
    pub covered: bool,
    pub stored: View,
}

// The write with which a row starts: neither releasing nor covered; its view names the first write of each word.
pub fn start_write(value: u8) -> Write
    ensures { result ≡ start_write value }
{
    Write {
        value,
        releasing: false,
        covered: false,
        stored: start_view(),
    }
}
