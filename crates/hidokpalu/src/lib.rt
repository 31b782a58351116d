// The library: every call of include/hidokpalu.h, so that one archive has all of them. Each has the name, the parameters and the contract
// of the entry point that it calls, and does nothing else.
#![tactic(auto)]

// The calls on images, and the calls of a service.
pub mod image_calls;
pub mod service_calls;
