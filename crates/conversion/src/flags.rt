// A flag for each request.
ghost use Rattle.std.specs.Prelude.{◌≡◌, ℕ, ◌<◌, false, not, ◌&&◌, ◌||◌, ◌==◌};
ghost use Rattle.conversion.specs.Flags.{flag};

use rules::MOST_REQUESTS;
use std::array;
use std::ops::{BitAnd, Not};

#[derive(Clone, Copy)]
pub(crate) struct Flags {
    up: [bool; MOST_REQUESTS],
}

impl Flags {
    // No flag is up.
    pub(crate) fn none() -> Flags
        ensures { (r : ℕ) → flag result r ≡ false }
    {
        Flags {
            up: [false; MOST_REQUESTS],
        }
    }

    // The flags that a test puts up.
    pub(crate) fn of<F: Fn(usize) -> bool>(test: F) -> Flags
        requires { (r : ℕ) → r < 4096 → F.pre test r }
        ensures { (r : ℕ) → r < 4096 → F.post test r (flag result r) }
    {
        Flags {
            up: array::from_fn(test),
        }
    }

    // Whether a flag is up.
    pub(crate) fn has(&self, r: usize) -> bool
        requires { r < 4096 }
        ensures { result ≡ flag self.now r }
    {
        self.up[r]
    }

    // Puts one flag up.
    pub(crate) fn raise(&mut self, r: usize)
        requires { r < 4096 }
        ensures { (k : ℕ) → flag self.new k ≡ (flag self.old k || (k == r)) }
    {
        self.up[r] = true;
    }
}

// The flags that are up in both. Flags are lent to an operator, since a copy of them is long.
impl BitAnd for &Flags {
    type Output = Flags;

    ghost bitand_gives = { λ a b both. (r : ℕ) → r < 4096 → flag both r ≡ (flag a.now r && flag b.now r) };

    fn bitand(self, other: &Flags) -> Flags {
        Flags::of(|r| self.has(r) && other.has(r))
    }
}

// The flags that are not up.
impl Not for &Flags {
    type Output = Flags;

    ghost not_gives = { λ a opposite. (r : ℕ) → r < 4096 → flag opposite r ≡ not (flag a.now r) };

    fn not(self) -> Flags {
        Flags::of(|r| !self.has(r))
    }
}
