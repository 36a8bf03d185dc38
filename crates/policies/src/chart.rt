// A chart: a byte for each request.
ghost use Rattle.policies.specs.Policies.{chart_meaning};

use crate::policy::Policy;
use rules::{Effect, MOST_REQUESTS};

// Byte 0 denies its request, and any other permits it; bytes after the first 4096 do not count.
#[derive(Clone, Copy)]
pub struct Chart<'a> {
    pub bytes: &'a [u8],
}

impl<'a> Policy for Chart<'a> {
    ghost meaning = { λ p. chart_meaning p.bytes.now };

    fn requests(&self) -> usize {
        self.bytes.len().min(MOST_REQUESTS)
    }

    fn decide(&self, request: usize) -> Option<Effect> {
        let byte = self.bytes[..self.requests()].get(request)?;
        Some(if *byte == 0 {
            Effect::Deny
        } else {
            Effect::Permit
        })
    }
}
