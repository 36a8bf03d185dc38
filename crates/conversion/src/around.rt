// The led requests with what lies above and below them: their floors where the default overrides, or the first gap.
ghost use Rattle.std.specs.Prelude.{◌≡◌, true, Err, MatchOption};
ghost use Rattle.expressiveness.specs.Order.{CounterFloor, LeadFloor};
ghost use Rattle.conversion.specs.declared.side.Side.TheVariants.{Above, Below};
ghost use Rattle.conversion.specs.Beyond.{OverIn, Tells};
ghost use Rattle.conversion.specs.Shapes.{AnyGap, Flagged, In, Middle, Shaped};

use crate::flags::Flags;
use crate::floors::FloorFlags;
use crate::order::Order;
use crate::refusal::Unconverted;
use crate::side::Side;

// Which requests are led, which have a led one above them, and which have one below.
#[derive(Clone, Copy)]
pub(crate) struct Around<'a> {
    pub(crate) order: &'a Order,
    pub(crate) led: &'a Flags,
    pub(crate) above: &'a Flags,
    pub(crate) below: &'a Flags,
    ghost tells_above: { ∥ Tells order.now Above led.now above.now ∥₁ },
    ghost tells_below: { ∥ Tells order.now Below led.now below.now ∥₁ },
}

impl Around<'_> {
    // The lowest led requests: led, with none led below.
    fn lowest_led(&self) -> Flags
        ensures { Flagged self.now.order.now (LeadFloor (OverIn self.now.order.now) (In self.now.order.now self.now.led.now)) result }
    {
        self.led & &!self.below
    }

    // The lowest hopeless requests: not led, with none led above.
    fn lowest_hopeless(&self) -> Flags
        ensures { Flagged self.now.order.now (CounterFloor (OverIn self.now.order.now) (In self.now.order.now self.now.led.now)) result }
    {
        self.order.lowest(&(&!self.led & &!self.above))
    }

    // The middles of gaps: not led, with a led request above and one below.
    fn middles(&self) -> Flags
        ensures { Flagged self.now.order.now (Middle self.now.order.now self.now.led.now) result }
    {
        &!self.led & &(self.above & self.below)
    }

    // The first gap.
    fn first_gap(&self) -> Option<Unconverted>
        ensures { MatchOption result (AnyGap self.now.order.now self.now.led.now → ⊥) (λ gap. Shaped self.now.order.now true self.now.led.now (Err gap)) }
    {
        let middle = self.order.first_up(&self.middles())?;
        let upper = self.order.first_beyond(Side::Above, middle, self.led)?;
        let lower = self.order.first_beyond(Side::Below, middle, self.led)?;
        Some(Unconverted::Gap {
            upper,
            middle,
            lower,
        })
    }

    // The floors, or the first gap.
    pub(crate) fn floors(&self) -> Result<FloorFlags, Unconverted>
        ensures { Shaped self.now.order.now true self.now.led.now result }
    {
        // a refusal where there is something: `ok_or` goes the other way
        if let Some(gap) = self.first_gap() {
            return Err(gap);
        }
        Ok(FloorFlags {
            lead: self.lowest_led(),
            counter: self.lowest_hopeless(),
        })
    }
}
