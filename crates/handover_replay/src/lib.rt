// Replay across a handover (Change 12): `replay_handover` is the entry point, specs/Promise.antt what it promises.
#![tactic(auto)]

// Runs across a handover: the state at the handover, and the run after it.
pub mod mapped;
pub mod onward;

// The call: whether the handover is permitted, then both runs.
pub mod both;
pub mod entry;
