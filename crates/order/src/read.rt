// The words handed in: "up to 6 transactions of up to 8 actions each".
ghost use Rattle.std.specs.Prelude.{◌+◌, ◌≤◌, MatchOption};
ghost use Rattle.order.specs.Reading.{max_actions, slots, TxnRead, NoTxn, ExportRead, NoExport};

use crate::action::{Action, Kind};

pub const MAX_TXNS: usize = 6;

const MAX_ACTIONS: usize = 8;

// The actions of all transactions.
pub(crate) const SLOTS: usize = MAX_TXNS * MAX_ACTIONS;

// The actions of n transactions, one after another: those of the one at position p stand from starts[p] to
// starts[p + 1].
// Kept: arrays with a count beside, since nothing is allocated.
#[derive(Clone, Copy)]
pub(crate) struct Export {
    pub(crate) n: usize,
    pub(crate) actions: [Action; SLOTS],
    pub(crate) starts: [usize; MAX_TXNS + 1],
}

// A transaction's actions, stored from `len` on: where they end, and the words behind the transaction's.
fn read_txn<'a>(
    words: &'a [u32],
    actions: &mut [Action; SLOTS],
    len: usize,
) -> Option<(usize, &'a [u32])>
    requires { len + max_actions ≤ slots }
    ensures { MatchOption result (NoTxn words.now)
        (λ r. TxnRead words.now len actions.old actions.new r.0 r.1.now) }
{
    let (count, behind) = words.split_first()?;
    let k = *count as usize;
    if MAX_ACTIONS < k {
        return None;
    }
    let (pairs, rest) = behind.split_at_checked(2 * k)?;
    // Kept: by place, since a zip with `actions[len..].iter_mut()` is no plainer: the next free place is returned too.
    for (i, pair) in pairs.chunks_exact(2).enumerate() {
        let kind = Kind::try_from(pair[0]).ok()?;
        actions[len + i] = Action {
            kind,
            number: pair[1],
        };
    }
    Some((len + k, rest))
}

// The transactions that the words stand for.
pub(crate) fn read_export(words: &[u32]) -> Option<Export>
    ensures { MatchOption result (NoExport words.now) (λ e. ExportRead words.now e.n e.actions e.starts) }
{
    let (count, mut rest) = words.split_first()?;
    let n = *count as usize;
    if MAX_TXNS < n {
        return None;
    }
    // Kept: a filler, since no kind of action is the usual one, as a Default would say.
    let none = Action {
        kind: Kind::Write,
        number: 0,
    };
    let mut actions = [none; SLOTS];
    let mut starts = [0; MAX_TXNS + 1];
    let mut len = 0;
    // Kept: by place, since the bounds p and p + 1 of each transaction are places of `starts` for its readers too.
    for t in 0..n {
        (len, rest) = read_txn(rest, &mut actions, len)?;
        starts[t + 1] = len;
    }
    if !rest.is_empty() {
        return None;
    }
    Some(Export { n, actions, starts })
}
