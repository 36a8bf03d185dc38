// Conversion of a policy into a list of a model.
ghost use Rattle.conversion.specs.Converts.{Converts};
ghost use Rattle.conversion.specs.Listed.{Fitted, Listed};
ghost use Rattle.conversion.specs.Worked.{WorkedCases};

use crate::chart::{chart, led_in};
use crate::floors::FloorFlags;
use crate::order::Order;
use crate::refusal::Unconverted;
use ladders::Ladder;
use policies::Policy;
use rules::{Model, Rule};

// The requests of a ladder and so many conditions, if they are those of the policy.
fn fitting<P: Policy, L: Ladder>(
    policy: &P,
    ladder: &L,
    conditions: u8,
) -> Result<Order, Unconverted>
    ensures { Fitted (L.posts ladder.now) (L.at_least ladder.now) conditions (P.meaning policy.now) result }
{
    Order::of(ladder, conditions)
        .filter(|order| order.total == policy.requests())
        .ok_or(Unconverted::Misfit)
}

impl Order {
    // Writes the list of these floors into the slots and tells its two counts, or how many rules it has.
    fn list(
        &self,
        model: Model,
        floors: &FloorFlags,
        slots: &mut [Rule],
    ) -> Result<(usize, usize), Unconverted>
        ensures { Listed self.now model floors.now slots.old result slots.new }
    {
        let leads = self.count(&floors.lead);
        let counters = self.count(&floors.counter);
        let rules = leads + counters;
        if slots.len() < rules {
            return Err(Unconverted::FewSlots { rules });
        }
        self.put_rules(model.lead_effect(), &floors.lead, &mut slots[..leads]);
        self.put_rules(
            model.default_effect(),
            &floors.counter,
            &mut slots[leads..rules],
        );
        Ok((leads, counters))
    }
}

// Converts a policy into a list of a model, on a ladder and with so many conditions. The work bytes are lent for a chart of the policy, and the
// slots for the rules.
#[tactic(auto, using(crate::proofs::Cases::worked_cases))]
pub fn convert<P: Policy, L: Ladder>(
    policy: &P,
    ladder: &L,
    conditions: u8,
    model: Model,
    work: &mut [u8],
    slots: &mut [Rule],
) -> Result<(usize, usize), Unconverted>
    ensures converts { Converts (L.posts ladder.now) (L.at_least ladder.now) conditions (P.meaning policy.now) model work.old slots.old result work.new slots.new }
    ensures worked { WorkedCases }
{
    let order = fitting(policy, ladder, conditions)?;
    if work.len() < order.total {
        return Err(Unconverted::FewWorkBytes {
            requests: order.total,
        });
    }
    let bytes = &mut work[..order.total];
    chart(policy, bytes);
    let led = led_in(bytes, model.lead_effect());
    let floors = order.floors(model, &led)?;
    order.list(model, &floors, slots)
}
