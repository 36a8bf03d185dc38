// The chart of a policy in the work bytes, and the requests that are led in it.
ghost use Rattle.std.specs.Prelude.{◌≡◌, ◌≤◌, length};
ghost use Rattle.conversion.specs.Charts.{BytesAre, chart_of};
ghost use Rattle.conversion.specs.Converts.{byte_of};

use crate::flags::Flags;
use policies::Policy;
use rules::Effect;

// The byte of an effect in a chart. It is another than its mark in a line, so neither is a `From` for effects.
fn byte_of(effect: Effect) -> u8
    ensures { result ≡ byte_of effect }
{
    match effect {
        Effect::Permit => 1,
        Effect::Deny => 0,
    }
}

// Writes what a policy decides, a byte for each of its requests.
pub(crate) fn chart<P: Policy>(policy: &P, work: &mut [u8])
    requires { length work.old ≡ (P.meaning policy.now).requests }
    ensures { work.new ≡ chart_of (P.meaning policy.now) (length work.old) }
{
    for (r, byte) in work.iter_mut().enumerate() {
        *byte = policy.decide(r).map_or(0, byte_of);
    }
}

// The requests that have an effect in a chart.
pub(crate) fn led_in(chart: &[u8], effect: Effect) -> Flags
    requires { length chart.now ≤ 4096 }
    ensures { BytesAre (byte_of effect) chart.now (length chart.now) result }
{
    let byte = byte_of(effect);
    let mut led = Flags::none();
    for (r, b) in chart.iter().enumerate() {
        if *b == byte {
            led.raise(r);
        }
    }
    led
}
