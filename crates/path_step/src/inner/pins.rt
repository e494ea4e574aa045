// The pins of one gate's record: the pin that a number goes through, and the counts before a pin.
ghost use Rattle.std.specs.Prelude.{◌≡◌, ◌≤◌, ◌^◌};
ghost use Rattle.model.specs.Base.{sum_of};
ghost use Rattle.model.specs.Path.{counts_before};
ghost use Rattle.netlist.specs.Tables.{pin_count_in};
ghost use Rattle.path_step.specs.Picks.{PinsIn, pin_counts_in, pick_pin_of};

use netlist::inner::pin_net;
use record_bytes::inner::wide;

// The pin of a gate, or the place of an output, that a number goes through; its net, and the number there.
#[derive(Drop)]
pub struct Pick {
    pub pin: usize,
    pub net: usize,
    pub number: u64,
}

// The pin that partial path `number` goes through, of the gate's record with which the part begins.
pub fn pick_pin(part: &[u8], counts: &[u64; 512], number: u64) -> Pick
    requires { PinsIn part.now × (number ≤ sum_of (pin_counts_in part.now counts.now)) }
    ensures { result ≡ pick_pin_of part.now counts.now number }
{
    let pins = wide(part[3]);
    let mut pin = 0;
    let mut rest = number;
    while pin + 1 < pins {
        let net = pin_net(part, pin);
        let count = counts[net];
        if rest <= count {
            return Pick {
                pin,
                net,
                number: rest,
            };
        }
        rest -= count;
        pin += 1;
    }
    let net = pin_net(part, pin);
    Pick {
        pin,
        net,
        number: rest,
    }
}

// The sum of the counts at the pins before a pin of the gate's record with which the part begins.
pub fn count_before(part: &[u8], counts: &[u64; 512], pin: usize) -> u64
    requires { PinsIn part.now × (pin ≤ pin_count_in part.now) × (sum_of (pin_counts_in part.now counts.now) ≤ 2 ^ 62) }
    ensures { result ≡ counts_before pin (pin_counts_in part.now counts.now) }
{
    let mut sum: u64 = 0;
    for before in 0..pin {
        let net = pin_net(part, before);
        sum += counts[net];
    }
    sum
}
