// The consecutive walk: it offers every commit that is not known to be common, the latest first.
#![tactic(auto)]

ghost use Rattle.model.specs.Steady.{Fit};
ghost use Rattle.walk.specs.View.{view, numbered, places, mark_places};

use walk::state::State;

pub mod calls;
mod drawing;
mod marking;

// What holds of the state between calls is part of the type, so that no call asks anything of its caller. Each walk has a
// struct of its own: the steps of a generic one in another crate could be no methods.
#[derive(Drop)]
pub struct Algorithm {
    state: State,
    ghost fit: { ∥ Fit (view state) (numbered state) (places state) (mark_places state) ∥₁ },
}
