// Refusals, by the numbers of documents 01 and 02.
ghost use Rattle.std.specs.Prelude.{◌≡◌};
ghost use Rattle.rules.specs.Requests.{number};

// Why a frame, a tray or what else is handed in is refused. (14 is never given out.)
#[derive(Clone, Copy, PartialEq, Eq)]
pub enum Refusal {
    // Of a frame.
    Area = 1,
    Operation = 2,
    Length = 3,
    Form = 4,
    Party = 5,
    Waiting = 6,
    NotLive = 7,
    NotOwn = 8,
    Lease = 9,
    Clock = 10,
    Entries = 11,
    Txns = 12,
    Number = 13,
    // Of a tray.
    Tray = 15,
    Pairs = 16,
    // Of a notify, and of a renewal.
    Registrations = 17,
    NoEntry = 18,
    NotWriter = 19,
    Held = 20,
    // Of a place or an arc.
    Place = 21,
    // Of an export, of a trial, and of a tray too many.
    Order = 22,
    Panes = 23,
    Rounds = 24,
    Sittings = 25,
}

impl Refusal {
    // Kept: no From for u8, since `refusal.number()` says what the byte is, and `u8::from(refusal)` does not.
    pub fn number(self) -> u8
        ensures { result ≡ number self }
    {
        self as u8
    }
}
