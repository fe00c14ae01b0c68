//! Laws of names. Each is the contract of a function that does nothing.

ghost use Rattle.std.specs.Prelude.{◌≡◌, ℕ, List};
ghost use Rattle.cq_cycle.specs.declared.roll.Roll.{Roll};
ghost use Rattle.cq_cycle.specs.Name.{IsName};

/// A cycle has at most one name, and a name belongs to at most one cycle of a roll and an epoch.
pub fn names_and_cycles_are_paired()
    ensures one_name { (roll : Roll) (epoch cycle : ℕ) (name other : List ℕ)
        → IsName roll epoch cycle name → IsName roll epoch cycle other → name ≡ other }
    ensures one_cycle { (roll : Roll) (epoch cycle other : ℕ) (name : List ℕ)
        → IsName roll epoch cycle name → IsName roll epoch other name → cycle ≡ other }
{}
