// Positions on the clock face: a place as hour and minute, and back, and its mirror. What is out of range gives 65,536
// times the refusal's number.
#![tactic(auto)]

ghost use Rattle.std.specs.Prelude.{◌≡◌};
ghost use Rattle.rules.specs.Places.{is_time, place_of_time, time_of_place, mirrored_place};

use rules::Refusal;
use rules::numbers::PLACES;

const HOURS: u32 = 12;

const MINUTES: u32 = 60;

const LAST_MINUTE: u32 = 59;

// The hour stands above the minute: 256 × hour + minute.
const HOUR: u32 = 256;

const NO_PLACE: u64 = 65536 * Refusal::Place as u64;

// Hour 1 to 12, minute 0 to 59.
pub(crate) fn is_time(hour: u32, minute: u32) -> bool
    ensures { result ≡ is_time hour minute }
{
    (1 <= hour) & (hour <= HOURS) & (minute <= LAST_MINUTE)
}

// 0 to 719, 12:00 being 0.
// Kept: a number, since the space hands it on to C as it is.
#[tactic(auto, unfolding(rules::specs::Places::place_of_time, rules::specs::Places::place_of))]
pub fn place_of(hour: u32, minute: u32) -> u64
    ensures { result ≡ place_of_time hour minute }
{
    if !is_time(hour, minute) {
        return NO_PLACE;
    }
    u64::from(hour % HOURS * MINUTES + minute)
}

// Kept: a number, since the space hands it on to C as it is.
pub fn time_of(place: u32) -> u64
    ensures { result ≡ time_of_place place }
{
    if PLACES <= place {
        return NO_PLACE;
    }
    if place < MINUTES {
        return u64::from(HOUR * HOURS + place);
    }
    u64::from(HOUR * (place / MINUTES) + place % MINUTES)
}

// (720 - place) modulo 720.
// Kept: a number, since the space hands it on to C as it is.
#[tactic(auto, unfolding(rules::specs::Places::mirrored_place, rules::specs::Places::mirror_of))]
pub fn mirror_of(place: u32) -> u64
    ensures { result ≡ mirrored_place place }
{
    if PLACES <= place {
        return NO_PLACE;
    }
    u64::from((PLACES - place) % PLACES)
}
