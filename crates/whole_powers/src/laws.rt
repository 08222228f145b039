//! Laws of powers, over all natural numbers.
ghost use Rattle.whole_powers.specs.Bounds.{BernoulliAbove, BernoulliBelow, PowersAdd, OnePhase, PhasesBound};

/// Bernoulli's inequality, above one and below one.
pub fn bernoulli()
    ensures above { BernoulliAbove }
    ensures below { BernoulliBelow }
{}

/// Two bounds of one form add up.
pub fn powers_add()
    ensures { PowersAdd }
{}

/// One phase more, where it takes a part of the balls that are left.
pub fn one_phase()
    ensures { OnePhase }
{}

/// The number of phases in which a number falls to nothing.
pub fn phases_bound()
    ensures { PhasesBound }
{}
