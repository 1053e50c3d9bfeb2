// Both sides as they begin.
ghost use Rattle.std.specs.Prelude.{◌≡◌, replicate};
ghost use Rattle.port.specs.Sides.{fresh_port};

use crate::Port;
use crate::sides::own_in;

// A port that awaits, gathers and holds nothing on either side, and has entered no mode.
pub fn fresh(partner_entered: &mut [u8; 72], cable_entered: &mut [u8; 72]) -> Port
    ensures { (result ≡ fresh_port) × (partner_entered.new ≡ replicate 72 0) × (cable_entered.new ≡ replicate 72 0) }
{
    Port {
        wait: None,
        partner: own_in(laptop::fresh(partner_entered)),
        cable: own_in(laptop::fresh(cable_entered)),
    }
}
