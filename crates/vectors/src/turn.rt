// A stored turn at a service: what is done and by whom, what is passed, and what is left.
ghost use Rattle.std.specs.Prelude.{◌≡◌};
ghost use Rattle.vectors.specs.Turn.{turn_kind_by, number_of, turn_kind_of, service_at, caller_at, lengths_at, set_at, bytes_at, numbers_at, tariff_at};

use crate::bill_answer;
use crate::number::u32_at;
use bill_spec::tariff::Tariff;
use limits::read::{byte_at, rest, u8_at};

// The layout of a stored turn.
#[derive(Drop)]
pub struct Stored;

impl Stored {
    // `rust/README.md` has the layout.
    pub const BYTES: usize = 274;

    // No turn passes more numbers of the service.
    pub const SERVICE: usize = 16;
}

// The buffers of a call, of which a turn passes the front.
#[derive(Drop)]
pub struct Room;

impl Room {
    // No turn passes more bytes, and all of them are compared.
    pub const BYTES: usize = 64;

    // No turn passes more numbers, and all of them are compared.
    pub const NUMBERS: usize = 24;

    // Every byte of the buffer before the call.
    pub const BLANK: u8 = 170;

    // Every 32-bit number of the buffer before the call.
    pub const BLANK_NUMBER: u32 = 2863311530;

    // Every 64-bit number of the buffer before the call.
    pub const BLANK_WIDE: usize = 2863311530;
}

// What is done: the service is opened, the host sets a caller's number, or a call is made.
#[derive(Clone, Copy, PartialEq, Eq)]
pub enum TurnKind {
    Open,
    Set,
    Check,
    Trim,
    Bill,
    Handover,
    Replay,
    ReplayAcross,
}

// A number of no kind of turn.
#[derive(Clone, Copy, PartialEq, Eq)]
pub struct UnknownTurn(pub u8);

impl UnknownTurn {
    // Such turns are counted by this number.
    pub const NUMBER: usize = 8;
}

impl TryFrom<u8> for TurnKind {
    type Error = UnknownTurn;

    ghost try_from_gives = { λ number kind. kind ≡ turn_kind_by number };

    fn try_from(number: u8) -> Result<TurnKind, UnknownTurn> {
        match number {
            0 => Ok(TurnKind::Open),
            1 => Ok(TurnKind::Set),
            2 => Ok(TurnKind::Check),
            3 => Ok(TurnKind::Trim),
            4 => Ok(TurnKind::Bill),
            5 => Ok(TurnKind::Handover),
            6 => Ok(TurnKind::Replay),
            7 => Ok(TurnKind::ReplayAcross),
            _ => Err(UnknownTurn(number)),
        }
    }
}

// What turns of a kind are counted by.
impl From<TurnKind> for usize {
    ghost from_gives = { λ kind number. number ≡ number_of kind };

    fn from(kind: TurnKind) -> usize {
        match kind {
            TurnKind::Open => 0,
            TurnKind::Set => 1,
            TurnKind::Check => 2,
            TurnKind::Trim => 3,
            TurnKind::Bill => 4,
            TurnKind::Handover => 5,
            TurnKind::Replay => 6,
            TurnKind::ReplayAcross => 7,
        }
    }
}

// What the turn does.
#[tactic(auto, unfolding(crate::specs::Turn::turn_kind_of))]
pub fn turn_kind_at(bytes: &[u8]) -> Result<TurnKind, UnknownTurn>
    ensures { result ≡ turn_kind_of bytes.now }
{
    TurnKind::try_from(u8_at(bytes, 0))
}

// How many numbers of the service the turn passes: all but as many as are stored.
#[tactic(auto, unfolding(crate::specs::Turn::service_at))]
pub fn service_at(bytes: &[u8]) -> usize
    ensures { result ≡ service_at bytes.now }
{
    Stored::SERVICE.saturating_sub(byte_at(bytes, 1))
}

// The caller of the turn.
#[tactic(auto, unfolding(crate::specs::Turn::caller_at))]
pub fn caller_at(bytes: &[u8]) -> usize
    ensures { result ≡ caller_at bytes.now }
{
    u32_at(bytes, 2)
}

// The stored bytes from the lengths of the body's parts on.
#[tactic(auto, unfolding(crate::specs::Turn::lengths_at))]
pub fn lengths_at(bytes: &[u8]) -> &[u8]
    ensures { result.now ≡ lengths_at bytes.now }
{
    rest(bytes, 6)
}

// The number that the host sets.
#[tactic(auto, unfolding(crate::specs::Turn::set_at))]
pub fn set_at(bytes: &[u8]) -> u32
    ensures { result ≡ set_at bytes.now }
{
    u32_at(bytes, 30) as u32
}

// How many bytes of the buffer the turn passes.
#[tactic(auto, unfolding(crate::specs::Turn::bytes_at))]
pub fn bytes_at(bytes: &[u8]) -> usize
    ensures { result ≡ bytes_at bytes.now }
{
    u32_at(bytes, 26).min(Room::BYTES)
}

// How many numbers of the buffer the turn passes.
#[tactic(auto, unfolding(crate::specs::Turn::numbers_at))]
pub fn numbers_at(bytes: &[u8]) -> usize
    ensures { result ≡ numbers_at bytes.now }
{
    u32_at(bytes, 30).min(Room::NUMBERS)
}

// The tariff of the turn, stored as that of a bill is.
#[tactic(auto, using(crate::proofs::TurnTariff::tariff_behind))]
pub fn tariff_at(bytes: &[u8]) -> Tariff
    ensures { result ≡ tariff_at bytes.now }
{
    bill_answer::tariff_at(rest(bytes, 34))
}
