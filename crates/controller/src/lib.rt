#![tactic(auto)]

// Both ends for firmware in C to link: each public call of the dock, the laptop and the catalogue over numbers that the caller lends.
//
// A state is lent as numbers, and so is what a call hands over. Any numbers are taken; `specs/` says what an ill-formed one counts as. Each call turns
// the numbers into the state, makes the call, writes the new state back and gives the refusal number. A refusal changes no lent number, unless
// it changes the laptop's state.
// The numbers, also those for refusals, kinds and sides, and the arrays one by one, are the C interface.
mod catalogue_call;
mod catalogue_mending;
mod catalogue_reading;
mod dock_calls;
mod dock_state;
mod laptop_calls;
mod laptop_owner;
mod laptop_timers;
mod numbers;
mod port_same;
mod port_state;
mod port_writing;
mod told;

pub use catalogue_call::catalogue_write;
pub use catalogue_mending::catalogue_mend;
pub use catalogue_reading::{catalogue_read, catalogue_stretch};
pub use dock_calls::{
    dock_failed, dock_fresh, dock_load, dock_message, dock_policy_answer, dock_sent,
};
pub use laptop_calls::{laptop_fresh, laptop_message, laptop_report};
pub use laptop_owner::{laptop_drop, laptop_enter, laptop_exit, laptop_next, laptop_start_over};
pub use laptop_timers::{
    laptop_entry_timer, laptop_exit_timer, laptop_protocol_error, laptop_response_timer,
};
