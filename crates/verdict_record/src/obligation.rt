// The obligations of a proof outline, and how a verdict names them; threads count from 1, points from 0.
ghost use Rattle.std.specs.Prelude.{◌≡◌};
ghost use Rattle.verdict_record.specs.ObligationPlace.{place_of};

// The four kinds of obligations, classes 1 to 4.
#[derive(Clone, Copy)]
pub enum Obligation {
    Start {
        thread: usize,
    },
    Step {
        thread: usize,
        point: usize,
    },
    Taken {
        thread: usize,
        point: usize,
    },
    // The asserting thread and point first, then the acting ones.
    Interference {
        thread: usize,
        point: usize,
        other: usize,
        other_point: usize,
    },
}

// The numbers by which a verdict names an obligation or a claim; those that don't apply are 0.
#[derive(Clone, Copy)]
pub struct Place {
    pub class: usize,
    pub thread: usize,
    pub point: usize,
    pub other_thread: usize,
    pub other_point: usize,
}

// The place of a verdict that names no obligation and no claim.
pub const NOWHERE: Place = Place {
    class: 0,
    thread: 0,
    point: 0,
    other_thread: 0,
    other_point: 0,
};

// The numbers by which a verdict names the obligation.
impl From<Obligation> for Place {
    ghost from_gives = { λ what place. place ≡ place_of what };

    #[tactic(auto, using(crate::proofs::VerdictBranches::place_of_branches))]
    fn from(what: Obligation) -> Place {
        match what {
            Obligation::Start { thread } => Place {
                class: 1,
                thread,
                ..NOWHERE
            },
            Obligation::Step { thread, point } => Place {
                class: 2,
                thread,
                point,
                ..NOWHERE
            },
            Obligation::Taken { thread, point } => Place {
                class: 3,
                thread,
                point,
                ..NOWHERE
            },
            Obligation::Interference {
                thread,
                point,
                other,
                other_point,
            } => Place {
                class: 4,
                thread,
                point,
                other_thread: other,
                other_point,
            },
        }
    }
}
