// The laptop's timers and the protocol error: they concern the side that waits.
ghost use Rattle.timers.specs.Timers.{decide_timer, decide_error};
ghost use Rattle.controller.specs.LaptopCalls.{LaptopSendsNothing};

use crate::port_state::port_from;
use crate::told::hand_over;

pub fn laptop_response_timer(state: &mut [u16; 22], handed: &mut [u32; 8]) -> u8
    ensures { LaptopSendsNothing (λ l. decide_timer 1 3 l l.wait) result state handed }
{
    hand_over(port::response_timer(port_from(state)), state, handed)
}

pub fn laptop_entry_timer(state: &mut [u16; 22], handed: &mut [u32; 8]) -> u8
    ensures { LaptopSendsNothing (λ l. decide_timer 4 4 l l.wait) result state handed }
{
    hand_over(port::entry_timer(port_from(state)), state, handed)
}

pub fn laptop_exit_timer(state: &mut [u16; 22], handed: &mut [u32; 8]) -> u8
    ensures { LaptopSendsNothing (λ l. decide_timer 5 5 l l.wait) result state handed }
{
    hand_over(port::exit_timer(port_from(state)), state, handed)
}

pub fn laptop_protocol_error(state: &mut [u16; 22], handed: &mut [u32; 8]) -> u8
    ensures { LaptopSendsNothing (λ l. decide_error l l.wait) result state handed }
{
    hand_over(port::protocol_error(port_from(state)), state, handed)
}
