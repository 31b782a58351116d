// The rights of callers: who may call for what.
ghost use Rattle.std.specs.Prelude.{◌≡◌, MatchResult};
ghost use Rattle.service_spec.specs.Account.{holds, denied_code, admission};

// What a caller may ask for: check (also trimming and permitting a handover), replay (also across one), bill.
#[derive(Clone, Copy)]
pub enum Right {
    Check,
    Replay,
    Bill,
}

// The numbers of a service.
#[derive(Drop)]
pub struct Service;

impl Service {
    // Callers count from 1 to this.
    pub const CALLERS: usize = 8;

    // The rights of each caller, a bit for each right, then the number of billed images of each.
    pub const NUMBERS: usize = 2 * Service::CALLERS;

    // The number of billed images of a caller is at index `BILLED + caller`.
    pub const BILLED: usize = Service::CALLERS - 1;

    // A byte of rights is taken modulo this.
    pub const RIGHTS: u8 = 8;
}

// Why a caller is refused.
#[derive(Clone, Copy, PartialEq, Eq)]
pub enum Denied {
    // The caller is not 1 to 8.
    NoCaller,
    // The caller does not have the right.
    NoRight,
}

impl Denied {
    // The code that the caller is told.
    #[tactic(auto, unfolding(crate::specs::Account::denied_code))]
    pub fn code(self) -> u16
        ensures { result ≡ denied_code self }
    {
        match self {
            Denied::NoCaller => 35,
            Denied::NoRight => 36,
        }
    }
}

// Whether the bits of `rights` have this right.
#[tactic(auto, unfolding(crate::specs::Account::holds))]
fn has_right(rights: u32, right: Right) -> bool
    ensures { result ≡ holds right rights }
{
    match right {
        Right::Check => rights % 2 == 1,
        Right::Replay => rights / 2 % 2 == 1,
        Right::Bill => rights / 4 % 2 == 1,
    }
}

// Whether a caller has the right. A service that is too short gives no right to the callers it leaves out.
#[tactic(auto, using(crate::proofs::AdmissionBranches::admitted_branches), unfolding(crate::specs::Account::denied_code))]
pub fn admitted(service: &[u32], caller: usize, right: Right) -> Result<(), Denied>
    ensures { MatchResult result (λ done. admission right service.now caller ≡ 0)
        (λ denied. denied_code denied ≡ admission right service.now caller) }
{
    if caller == 0 {
        return Err(Denied::NoCaller);
    }
    if Service::CALLERS < caller {
        return Err(Denied::NoCaller);
    }
    if service.len() < caller {
        return Err(Denied::NoRight);
    }
    if has_right(service[caller - 1], right) {
        return Ok(());
    }
    Err(Denied::NoRight)
}
