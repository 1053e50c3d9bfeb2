#![tactic(auto)]

// The calls of `controller` for C to link, and for Rust: the same functions under their names, with the same clauses.
mod catalogue_call;
mod catalogue_mending;
mod catalogue_reading;
mod dock_calls;
mod laptop_calls;
mod laptop_owner;
mod laptop_timers;
