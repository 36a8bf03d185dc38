// Why a policy is not converted.
ghost use Rattle.std.specs.Prelude.{◌≡◌, ◌≤◌, length};
ghost use Rattle.conversion.specs.Refusals.{number_of, figures_of};

use arrayvec::ArrayVec;

#[derive(Clone, Copy, Debug, PartialEq, Eq)]
pub enum Unconverted {
    // there are more than nine conditions, or the policy has other requests than the ladder's posts and the conditions make
    Misfit,
    // there are fewer work bytes than requests
    FewWorkBytes {
        requests: usize,
    },
    // no list exists: a request that is not led, with a led one above it and one below
    Gap {
        upper: usize,
        middle: usize,
        lower: usize,
    },
    // no list exists: a led request with one above that is not led
    Step {
        upper: usize,
        lower: usize,
    },
    // there are fewer slots than rules
    FewSlots {
        rules: usize,
    },
}

impl Unconverted {
    // The number under which the refusal is known. The subject gives the numbers, so they stand in a table and do not follow the order of the cases.
    pub fn number(&self) -> u8
        ensures { result ≡ number_of self.now }
    {
        match self {
            Unconverted::Misfit => 11,
            Unconverted::FewWorkBytes { .. } => 16,
            Unconverted::Gap { .. } => 17,
            Unconverted::Step { .. } => 18,
            Unconverted::FewSlots { .. } => 19,
        }
    }

    // Its figures: the work bytes needed; the upper, middle and lower request; the upper and the lower; the rules.
    pub fn figures(&self) -> ArrayVec<usize, 3>
        ensures { result.items ≡ figures_of self.now }
    {
        match *self {
            Unconverted::Misfit => row(&[]),
            Unconverted::FewWorkBytes { requests } => row(&[requests]),
            Unconverted::Gap {
                upper,
                middle,
                lower,
            } => row(&[upper, middle, lower]),
            Unconverted::Step { upper, lower } => row(&[upper, lower]),
            Unconverted::FewSlots { rules } => row(&[rules]),
        }
    }
}

// At most three figures in a row.
fn row(figures: &[usize]) -> ArrayVec<usize, 3>
    requires { length figures.now ≤ 3 }
    ensures { result.items ≡ figures.now }
{
    ArrayVec::try_from(figures).unwrap()
}
