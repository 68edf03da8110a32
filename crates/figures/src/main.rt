//! The worked figures of the product: one proof over a list of cases, and a run of the generator
//! to its published figures.

#![tactic(auto)]

ghost use Rattle.std.specs.Prelude.{◌≡◌};
ghost use Rattle.hashing.specs.Generator.{after};
ghost use Rattle.figures.specs.Figures.{FiguresHold};

use hashing::fault::HashFault;
use hashing::seed::Seed;
use std::io;

/// Every worked figure is what the definitions compute.
fn figures_hold()
    ensures { FiguresHold }
{}

/// The state after so many steps.
fn drawn(seed: Seed, steps: u32) -> Seed
    ensures { result.value ≡ after steps seed.value }
{
    let mut state = seed;
    for _ in 0..steps {
        state = state.next();
    }
    state
}

fn main(rt: HostRuntime) -> io::Result<()> {
    figures_hold();
    let Ok(seed) = Seed::new(1) else {
        return println!(rt; "seed 1 is refused");
    };
    for steps in [1, 2, 3, 10000] {
        let state = drawn(seed, steps).value();
        println!(rt; "seed 1 after {steps} steps: {state}")?;
    }
    Ok(())
}
