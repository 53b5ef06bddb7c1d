// Hints: asked, and kept as frames bring new leases, look-ups and transactions. They may say less than is so, never
// more.
ghost use Rattle.std.specs.Prelude.{true, ◌≡◌, ◌≤◌, ◌<◌};
ghost use Rattle.rules.specs.Numbers.{forever};
ghost use Rattle.rules.specs.State.{empty};
ghost use Rattle.rules.specs.Time.{until};
ghost use Rattle.rules.specs.Words.{view};
ghost use Rattle.hints.specs.Hints.{has_flag, NotBefore, Weaker, Knows, Reliable};

use rules::numbers::FOREVER;
use rules::{LookUp, TxnId};
use words::rows::{Words, row_at, row_count};

// One for each party, and more.
const FLAGS: usize = 32;

#[derive(Clone, Copy)]
pub struct Hints {
    // A tick before which nothing ends.
    // Kept: a word: FOREVER is later than every tick, so `min` and `<` need no order on `Until`.
    pub least: u32,
    // The greatest number of a transaction that has done anything.
    // Kept: 0 if none has, FOREVER if that is unknown: as a number one comparison tells all three (`is_idle`).
    pub acted: u32,
    // Who may wait, by the remainder of the party's number.
    pub flags: [bool; FLAGS],
}

impl Hints {
    // Of the empty space: nothing ends, no transaction has done anything, nobody waits.
    pub fn of_empty() -> Hints
        ensures { Reliable result empty }
    {
        Hints {
            least: FOREVER,
            acted: 0,
            flags: [false; FLAGS],
        }
    }

    // Nothing is known: true of any space.
    pub fn unknown() -> Hints
        ensures { (m : _) → Reliable result m }
    {
        Hints {
            least: 0,
            acted: FOREVER,
            flags: [true; FLAGS],
        }
    }

    // A tick before which nothing ends.
    pub fn least_end(&self) -> u32
        ensures { result ≡ self.now.least }
    {
        self.least
    }

    // Whether the transaction is known to have done nothing.
    pub fn is_idle(&self, id: TxnId) -> bool
        ensures { result ≡ true → (self.now.acted < id.0) × (self.now.acted < forever) }
    {
        self.acted < id.0
    }

    // Whether the party may wait.
    pub fn may_wait(&self, party: u8) -> bool
        ensures { result ≡ has_flag self.now party }
    {
        self.flags[usize::from(party) % FLAGS]
    }

    // Something new ends at the tick, or later.
    fn lower(&mut self, tick: u32)
        ensures { Weaker self.old self.new × (self.new.least ≤ tick) }
    {
        self.least = self.least.min(tick);
    }

    // A lease from the clock on. (One that ends behind the last clock is refused.)
    pub fn note_lease(&mut self, clock: u32, lease: u32)
        ensures { Weaker self.old self.new × NotBefore self.new.least (until clock lease) }
    {
        self.lower(clock.saturating_add(lease));
    }

    // An entry's: with lease 0 none is stored.
    pub fn note_stored(&mut self, clock: u32, lease: u32)
        ensures { Weaker self.old self.new
            × ((lease ≡ 0 → ⊥) → NotBefore self.new.least (until clock lease)) }
    {
        if lease != 0 {
            self.note_lease(clock, lease);
        }
    }

    // Something is done in the transaction.
    pub fn note_acted(&mut self, id: TxnId)
        ensures { Weaker self.old self.new × (id.0 ≤ self.new.acted) }
    {
        self.acted = self.acted.max(id.0);
    }

    pub(crate) fn flag_party(&mut self, party: u8)
        ensures { Weaker self.old self.new × (has_flag self.new party ≡ true)
            × (self.new.least ≡ self.old.least)
            × (self.new.acted ≡ self.old.acted) }
    {
        self.flags[usize::from(party) % FLAGS] = true;
    }

    // The look-up that waits last, if anyone waits.
    pub fn note_last(&mut self, space: &Words)
        ensures { Weaker self.old self.new × Knows self.new (view space.now).waits }
    {
        let Some(last) = row_count::<LookUp>(space).checked_sub(1) else {
            return;
        };
        let w = row_at::<LookUp>(space, last);
        self.lower(u32::from(w.deadline));
        self.flag_party(w.party);
    }
}
