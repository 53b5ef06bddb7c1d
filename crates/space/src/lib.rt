// Every function that a host may call: `rt lib` here gives out/libspace.a, and host/space.h declares them.
#![tactic(auto)]

ghost use Rattle.std.specs.Prelude.{[], ◌≡◌};
ghost use Rattle.order.specs.Found.{OrderFound};
ghost use Rattle.rules.specs.Allowed.{Stepped, TrayRan};
ghost use Rattle.rules.specs.Places.{place_of_time, time_of_place, mirrored_place};
ghost use Rattle.rules.specs.State.{empty};
ghost use Rattle.rules.specs.Words.{view};
ghost use Rattle.tables.specs.Rows.{empty_words};
ghost use Rattle.bounds.specs.Bounds.{bounds_number};
ghost use Rattle.trial.specs.Trial.{Tried};
ghost use Rattle.sittings.specs.Report.{Added, report_of};
ghost use Rattle.space.specs.Version.{version};

use bounds::tray_bounds;
use clock_face::{mirror_of, place_of, time_of};
use order::find_order;
use sittings::Report;
use step::step_frame;
use tray::run_tray;
use words::rows::{Words, set_empty};

// SPACE_VERSION of host/space.h. It goes up by one with each change that a host can see.
pub const VERSION: u32 = 12;

#[unsafe(no_mangle)]
pub extern "C" fn space_version() -> u32
    ensures { result ≡ version }
{
    VERSION
}

// An empty space: clock 0, nothing stored, live or waiting, and 1 as each next number.
#[unsafe(no_mangle)]
pub extern "C" fn space_empty(space: &mut Words)
    ensures { (view space.new ≡ empty) × (space.new ≡ empty_words) }
{
    set_empty(space);
}

// What a frame does to the space: records + 65,536 × number. A refused frame gives the very same words back.
#[unsafe(no_mangle)]
pub extern "C" fn space_step(space: &mut Words, frame: &[u8], answers: &mut [u8]) -> u64
    ensures { Stepped space.old frame.now answers.old
        space.new result answers.new }
{
    step_frame(space, frame, answers)
}

// Positions on the clock face (the crate `clock_face`).
#[unsafe(no_mangle)]
pub extern "C" fn place_of_time(hour: u32, minute: u32) -> u64
    ensures { result ≡ place_of_time hour minute }
{
    place_of(hour, minute)
}

#[unsafe(no_mangle)]
pub extern "C" fn time_of_place(place: u32) -> u64
    ensures { result ≡ time_of_place place }
{
    time_of(place)
}

#[unsafe(no_mangle)]
pub extern "C" fn mirrored_place(place: u32) -> u64
    ensures { result ≡ mirrored_place place }
{
    mirror_of(place)
}

// How big an area a tray wants (the crate `bounds`).
#[unsafe(no_mangle)]
pub extern "C" fn space_tray_bounds(tray: &[u8]) -> u64
    ensures { result ≡ bounds_number tray.now }
{
    tray_bounds(tray)
}

// Trial panes (the crate `trial`): commits, exceptions and nothings of each pane.
#[unsafe(no_mangle)]
pub extern "C" fn space_trial(setup: &[u32], counts: &mut [u32]) -> u64
    ensures { Tried setup.now counts.old result counts.new }
{
    trial::run(setup, counts)
}

// The host hands in a tray and an answers area, and gets frames done, records and a number in one.
#[unsafe(no_mangle)]
pub extern "C" fn space_run_tray(tray: &[u8], answers: &mut [u8]) -> u64
    ensures { TrayRan tray.now answers.old result answers.new }
{
    run_tray(tray, answers)
}

// An order of transactions that accounts for what they did (the crate `order`).
#[unsafe(no_mangle)]
pub extern "C" fn space_find_order(actions: &[u32], order: &mut [u8]) -> u64
    ensures { OrderFound actions.now order.old result order.new }
{
    find_order(actions, order)
}

// Waiting times over many sittings (the crate `sittings`).
#[unsafe(no_mangle)]
pub extern "C" fn sittings_empty(report: &mut Report)
    ensures { report.new ≡ report_of [] }
{
    sittings::set_empty(report);
}

#[unsafe(no_mangle)]
pub extern "C" fn sittings_add(report: &mut Report, tray: &[u8]) -> u64
    ensures { Added report.old tray.now result report.new }
{
    sittings::add(report, tray)
}
