// Trimming for the archive (Change 2): `trim_image` is the entry point, specs/Promise.antt what it promises.
#![tactic(auto)]

pub mod entry;
pub mod trimming;
