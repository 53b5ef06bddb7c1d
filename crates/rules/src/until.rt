// When a lease or a look-up ends, and the word that says so.
ghost use Rattle.std.specs.Prelude.{◌≡◌};
ghost use Rattle.rules.specs.Time.{reached};
ghost use Rattle.rules.specs.Words.{until_of, until_word};

use crate::numbers::FOREVER;

// The end of a lease, or the deadline of a look-up.
#[derive(Clone, Copy, PartialEq, Eq)]
pub enum Until {
    Tick(u32),
    Forever,
}

impl Until {
    // Whether the clock has reached it.
    #[tactic(auto, unfolding(crate::specs::Time::reached))]
    pub fn is_reached(self, clock: u32) -> bool
        ensures { result ≡ reached clock self }
    {
        match self {
            Until::Tick(t) => t <= clock,
            Until::Forever => false,
        }
    }
}

impl From<u32> for Until {
    ghost from_gives = { λ n u. u ≡ until_of n };

    #[tactic(auto, unfolding(crate::specs::Words::until_of))]
    fn from(n: u32) -> Until {
        if n == FOREVER {
            Until::Forever
        } else {
            Until::Tick(n)
        }
    }
}

impl From<Until> for u32 {
    ghost from_gives = { λ u n. n ≡ until_word u };

    fn from(u: Until) -> u32 {
        match u {
            Until::Tick(t) => t,
            Until::Forever => FOREVER,
        }
    }
}
