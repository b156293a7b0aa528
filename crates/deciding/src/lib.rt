// What the calls for the index daemon answer. specs/ gives each case its number.
#![tactic(auto)]

ghost use Rattle.std.specs.Prelude.{◌≡◌};
ghost use Rattle.deciding.specs.Deciding.{decision_no, strongest_no};

// What becomes of a replica.
#[derive(Clone, Copy, Debug, PartialEq, Eq)]
pub enum Decision {
    Promote = 1,
    Hold = 2,
    NoTrace = 3,
}

impl From<Decision> for u32 {
    ghost from_gives = { λ decision no. no ≡ decision_no decision };

    #[tactic(auto, unfolding(crate::specs::Deciding::decision_no))]
    fn from(decision: Decision) -> u32 {
        decision as u32
    }
}

// The strongest level that accepts a trace.
#[derive(Clone, Copy, Debug, PartialEq, Eq)]
pub enum Strongest {
    NoLevel = 0,
    ReadCommitted = 1,
    ReadAtomicity = 2,
    Causal = 3,
}

impl From<Strongest> for u32 {
    ghost from_gives = { λ level no. no ≡ strongest_no level };

    #[tactic(auto, unfolding(crate::specs::Deciding::strongest_no))]
    fn from(level: Strongest) -> u32 {
        level as u32
    }
}
