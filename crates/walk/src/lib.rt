// The state that the walks share, and its steps in the words of the rules.
#![tactic(auto, unfolding(crate::specs::View::view, crate::specs::View::marks, crate::specs::View::places, crate::specs::View::numbered, crate::specs::View::mark_places, crate::specs::View::mark_numbered))]

pub mod state;
