// An order of transactions that accounts for what they did (document 02, T-12).
#![tactic(auto)]

ghost use Rattle.order.specs.Found.{OrderFound};

mod action;
mod plan;
mod read;
mod search;

use plan::Plan;
pub use read::MAX_TXNS;
use read::SLOTS;
use rules::Refusal;

const REFUSED: u64 = 65536 * Refusal::Order as u64;

// 1 with the first order that succeeds, 0 where none does, 65,536 × 22 where what is handed in is refused.
// Kept: a number, since the space hands it on to C as it is.
pub fn find_order(actions: &[u32], order: &mut [u8]) -> u64
    ensures { OrderFound actions.now order.old result order.new }
{
    let Some(plan) = Plan::of(actions) else {
        return REFUSED;
    };
    let n = plan.n;
    if order.len() < n {
        return REFUSED;
    }
    let Some(positions) = plan.search(0, [true; MAX_TXNS], [false; SLOTS]) else {
        return 0;
    };
    order[..n].copy_from_slice(&positions[..n]);
    1
}
