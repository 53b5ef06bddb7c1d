// The four kinds of look-up, by their operations.
ghost use Rattle.std.specs.Prelude.{◌≡◌, true};
ghost use Rattle.rules.specs.Frame.{is_operation, is_take, is_if_exists, look_up_op};

use crate::numbers::{OP_READ, OP_READ_IF_EXISTS, OP_TAKE, OP_TAKE_IF_EXISTS};

// The operation of a look-up that takes or reads, and is of an IfExists kind or not.
// Kept: two flags and no enum of four, since definitions of the rules (`available_if`, `is_pointless`) ask each alone.
#[tactic(auto, unfolding(crate::specs::Frame::layout_of))]
pub fn look_up_op(takes: bool, if_exists: bool) -> u8
    ensures { (result ≡ look_up_op takes if_exists) × (is_operation result ≡ true) }
{
    match (takes, if_exists) {
        (false, false) => OP_READ,
        (true, false) => OP_TAKE,
        (false, true) => OP_READ_IF_EXISTS,
        (true, true) => OP_TAKE_IF_EXISTS,
    }
}

// What an operation says of those, given as a word.
pub fn is_take(op: u32) -> bool
    ensures { result ≡ is_take op }
{
    op == u32::from(OP_TAKE) || op == u32::from(OP_TAKE_IF_EXISTS)
}

pub fn is_if_exists(op: u32) -> bool
    ensures { result ≡ is_if_exists op }
{
    op == u32::from(OP_READ_IF_EXISTS) || op == u32::from(OP_TAKE_IF_EXISTS)
}
