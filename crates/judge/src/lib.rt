// Why a request is refused: the refusals 6 to 13, of a renewal 19 and 20 and of a notify 17, in the order in which they
// are judged. (18 is given where a renewal's entry is looked for, in `step`.)
#![tactic(auto)]

ghost use Rattle.std.specs.Prelude.{◌≡◌, not, leb, length};
ghost use Rattle.rules.specs.Lists.{All};
ghost use Rattle.rules.specs.Numbers.{forever};
ghost use Rattle.rules.specs.Requests.{frame_of, number, number_of, space_refusal};
ghost use Rattle.rules.specs.Words.{view};
ghost use Rattle.rules.specs.declared.Request.TheVariants.{Write, Find, Create, Commit, Abort, Notify, Tick};
ghost use Rattle.rules.specs.declared.refusal.Refusal.TheVariants.{Clock, Number};
ghost use Rattle.hints.specs.Hints.{Flagged};
ghost use Rattle.judge.specs.Judge.{bars_unless, waiting_unless, HasNumber, number_left, named, txn_refusal};
ghost use Rattle.judge.specs.Judge.{party_refusal, late, Judged};
ghost use Rattle.judge.specs.Judge.{stored_refusal, new_refusal, entry_refusal};

use available::live::find_txn;
use hints::known::Hints;
use rules::numbers::{FOREVER, LAST_CLOCK};
use rules::{
    Entry, FindRequest, LookUp, NotifyRequest, Refusal, Registration, Txn, TxnId, WriteRequest,
};
use words::iter::rows;
use words::row::{Numbered, Row};
use words::rows::{Words, clock, next_number, row_count};

// Whether a waiting look-up bars a frame of the party: its own does, unless the frame aborts the transaction in which
// it waits. `leaving` is the transaction that the frame aborts, if it aborts one.
fn is_barring(w: LookUp, party: u8, leaving: Option<TxnId>) -> bool
    ensures { result ≡ bars_unless party leaving w }
{
    w.party == party && leaving.is_none_or(|t| w.txn != t)
}

// The transaction that a frame names, if it names one.
fn named(id: TxnId) -> Option<TxnId>
    ensures { result ≡ named id }
{
    (id != TxnId::NONE).then_some(id)
}

// A space that frames are judged against, and hints of it.
#[derive(Clone, Copy)]
pub struct Judge<'a> {
    pub space: &'a Words,
    pub hints: &'a Hints,
    // Whoever waits has a flag.
    ghost flagged: { All (Flagged hints.now) (view space.now).waits },
}

impl<'a> Judge<'a> {
    // Whether the party has a waiting look-up that the frame does not withdraw.
    pub fn waits_already(&self, party: u8, leaving: Option<TxnId>) -> bool
        ensures { result ≡ waiting_unless party leaving (view self.now.space.now).waits }
    {
        self.hints.may_wait(party)
            && rows::<LookUp>(self.space).any(|w| is_barring(w, party, leaving))
    }

    // 7 or 8, for a frame of the party in the transaction, if it is inside one.
    #[tactic(auto, unfolding(crate::specs::Judge::txn_refusal))]
    fn check_txn(&self, party: u8, inside: Option<TxnId>) -> Result<(), Refusal>
        ensures { number_of result ≡ txn_refusal inside party (view self.now.space.now).txns }
    {
        let Some(id) = inside else {
            return Ok(());
        };
        if id == TxnId::NONE {
            return Err(Refusal::NotLive);
        }
        let Some(t) = find_txn(self.space, id) else {
            return Err(Refusal::NotLive);
        };
        if t.party == party {
            Ok(())
        } else {
            Err(Refusal::NotOwn)
        }
    }

    // 6, 7 or 8, for such a frame, which may leave a transaction.
    #[tactic(auto, using(crate::proofs::RefusalParts::left_waiting), unfolding(crate::specs::Judge::party_refusal))]
    fn check_party(
        &self,
        party: u8,
        leaving: Option<TxnId>,
        inside: Option<TxnId>,
    ) -> Result<(), Refusal>
        requires { HasNumber leaving }
        ensures { number_of result ≡ party_refusal inside party (number_left leaving) (view self.now.space.now) }
    {
        if self.waits_already(party, leaving) {
            return Err(Refusal::Waiting);
        }
        self.check_txn(party, inside)
    }

    // 10: clock + lease or timeout, FOREVER excepted, is above 4294967294.
    fn check_end(&self, amount: u32) -> Result<(), Refusal>
        ensures { Judged (late (view self.now.space.now).clock amount) Clock result }
    {
        if amount != FOREVER && LAST_CLOCK - amount < clock(self.space) {
            Err(Refusal::Clock)
        } else {
            Ok(())
        }
    }

    // 11, 12 or 17: the table is full.
    fn check_room<T: Row>(&self, full: Refusal) -> Result<(), Refusal>
        ensures { Judged (leb T.MOST (length (T.rows (view self.now.space.now)))) full result }
    {
        if T::MOST <= row_count::<T>(self.space) {
            Err(full)
        } else {
            Ok(())
        }
    }

    // 13: no number is left.
    fn check_number<T: Numbered>(&self) -> Result<(), Refusal>
        ensures { Judged (leb forever (T.next (view self.now.space.now))) Number result }
    {
        if next_number::<T>(self.space) == FOREVER {
            Err(Refusal::Number)
        } else {
            Ok(())
        }
    }

    // 10, 11 or 13, for a write: with lease 0 no entry is stored.
    fn check_stored(&self, lease: u32) -> Result<(), Refusal>
        ensures { number_of result ≡ stored_refusal lease (view self.now.space.now) }
    {
        self.check_end(lease)?;
        if lease != 0 {
            self.check_room::<Entry>(Refusal::Entries)?;
        }
        self.check_number::<Entry>()
    }

    // 9, 10, 12 or 17, and 13, for a create or a notify: a new row of the table, with a lease.
    fn check_new<T: Numbered>(&self, lease: u32, full: Refusal) -> Result<(), Refusal>
        ensures { number_of result ≡ new_refusal lease (view self.now.space.now).clock
            (leb T.MOST (length (T.rows (view self.now.space.now)))) (number full)
            (T.next (view self.now.space.now)) }
    {
        if lease == 0 {
            return Err(Refusal::Lease);
        }
        self.check_end(lease)?;
        self.check_room::<T>(full)?;
        self.check_number::<T>()
    }

    // For each kind of request the first of the refusals 6 to 13 and 17 that applies, if any does.
    pub fn check_write(&self, w: WriteRequest) -> Result<(), Refusal>
        ensures { number_of result ≡ space_refusal (view self.now.space.now) (frame_of (Write w)) }
    {
        self.check_party(w.party, None, named(w.txn))?;
        self.check_stored(w.lease)
    }

    pub fn check_find(&self, l: FindRequest) -> Result<(), Refusal>
        ensures { number_of result ≡ space_refusal (view self.now.space.now) (frame_of (Find l)) }
    {
        self.check_party(l.party, None, named(l.txn))?;
        self.check_end(l.timeout)
    }

    pub fn check_create(&self, party: u8, lease: u32) -> Result<(), Refusal>
        ensures { number_of result ≡ space_refusal (view self.now.space.now) (frame_of (Create party lease)) }
    {
        self.check_party(party, None, None)?;
        self.check_new::<Txn>(lease, Refusal::Txns)
    }

    pub fn check_commit(&self, party: u8, id: TxnId) -> Result<(), Refusal>
        ensures { number_of result ≡ space_refusal (view self.now.space.now) (frame_of (Commit party id)) }
    {
        self.check_party(party, None, Some(id))
    }

    pub fn check_abort(&self, party: u8, id: TxnId) -> Result<(), Refusal>
        ensures { number_of result ≡ space_refusal (view self.now.space.now) (frame_of (Abort party id)) }
    {
        self.check_party(party, named(id), Some(id))
    }

    pub fn check_notify(&self, q: NotifyRequest) -> Result<(), Refusal>
        ensures { number_of result ≡ space_refusal (view self.now.space.now) (frame_of (Notify q)) }
    {
        self.check_party(q.party, None, None)?;
        self.check_new::<Registration>(q.lease, Refusal::Registrations)
    }

    pub fn check_tick(&self) -> Result<(), Refusal>
        ensures { number_of result ≡ space_refusal (view self.now.space.now) (frame_of Tick) }
    {
        self.check_party(0, None, None)?;
        if LAST_CLOCK <= clock(self.space) {
            Err(Refusal::Clock)
        } else {
            Ok(())
        }
    }

    // 19, 20 or 10, for a renewal of the entry.
    #[tactic(auto, unfolding(crate::specs::Judge::entry_refusal))]
    pub fn check_entry(&self, party: u8, e: Entry, lease: u32) -> Result<(), Refusal>
        ensures { number_of result ≡ entry_refusal party e (view self.now.space.now).clock lease }
    {
        if e.writer != party {
            return Err(Refusal::NotWriter);
        }
        if !e.is_free() {
            return Err(Refusal::Held);
        }
        self.check_end(lease)
    }
}
