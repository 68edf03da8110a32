//! Checks in their order, each with its fault: what a call that makes them answers.

#![tactic(auto)]

ghost use Rattle.refusals.specs.Laws.{FirstBrokenRefuses, LowestBrokenRefuses, AllMet};

/// A refusal is by the first check that is broken, and among numbered ones by the lowest;
/// where nothing is refused, every check is met.
pub fn first_broken_check_refuses<F>()
    ensures first { FirstBrokenRefuses F }
    ensures lowest { LowestBrokenRefuses F }
    ensures met { AllMet F }
{}
