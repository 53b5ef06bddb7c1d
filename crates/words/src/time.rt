// Where leases and timeouts end.
ghost use Rattle.std.specs.Prelude.{◌≡◌};
ghost use Rattle.rules.specs.Time.{until};
ghost use Rattle.tables.specs.Rows.{FitsWord};
ghost use Rattle.words.specs.Ends.{InTime};

use rules::Until;
use rules::numbers::FOREVER;

// The end of a lease or timeout that starts at the clock.
pub fn end_of(clock: u32, lease: u32) -> Until
    requires { InTime clock lease }
    ensures { (result ≡ until clock lease) × FitsWord result }
{
    if lease == FOREVER {
        Until::Forever
    } else {
        Until::Tick(clock + lease)
    }
}
