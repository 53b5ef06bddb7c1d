// What is watched while a tray is run: the report, the waits that are open, and the clock.
ghost use Rattle.std.specs.Prelude.{◌≡◌, ◌+◌, ◌≤◌, [], ◌∷◌};
ghost use Rattle.rules.specs.Numbers.{step_records};
ghost use Rattle.sittings.specs.Figures.{Gained};
ghost use Rattle.sittings.specs.Watch.{wait_at, left_of, logged, Stand, Heard, Asked, Noted};

use crate::Report;
use crate::figures::{Figures, add_figures};
use crate::records::{count_of, is_look_up, is_party, is_refused};
use crate::waits::{Wait, Waits, heard};
use codec::places::{PARTY_AT, TXN_AT};
use codec::{byte_at, number_at, record_at};
use rules::numbers::{KIND_TICKED, KIND_WAITING, MAX_PARTY, RECORD_SIZE};
use rules::{Record, TxnId};

// Kept: no Model, since the clock, the report and the waits each change by definitions of their own.
#[derive(Drop)]
pub struct Watch {
    pub report: Report,
    pub waits: Waits,
    pub clock: u32,
}

impl Watch {
    // A record is noted, at the clock after its frame.
    fn hear(&mut self, a: Record)
        ensures heard { Heard self.old.clock self.old.report self.old.waits (a ∷ []) self.new.report self.new.waits }
        ensures clock { self.new.clock ≡ self.old.clock }
    {
        if is_party(a.party) {
            let at = a.party as usize;
            let (more, left) = heard(self.waits[at], a, self.clock);
            add_figures(&mut self.report, a.party, more);
            self.waits[at] = left;
        }
    }

    // Each of a step's records.
    fn hear_all(&mut self, answers: &[u8], n: usize)
        requires { n ≤ step_records }
        ensures heard { (rs : _) → Stand answers.now n rs
            → Heard self.old.clock self.old.report self.old.waits rs self.new.report self.new.waits }
        ensures clock { self.new.clock ≡ self.old.clock }
    {
        // Kept: by places: over `chunks_exact(..).take(n)` the body would call the same reader: no plainer.
        for i in 0..n {
            self.hear(record_at(answers, RECORD_SIZE * i));
        }
    }

    // A frame's look-up is counted if it is not refused; if it is answered waiting, its wait begins at the clock after
    // it.
    // Kept: by places, since the contract holds beside any records, and `decode` refuses some frames that it counts.
    fn note_look_up(&mut self, frame: &[u8], answers: &[u8], n: usize)
        requires { n ≤ step_records }
        ensures asked { (rs : _) → Stand answers.now n rs
            → Asked self.old.clock self.old.report self.old.waits (logged frame.now rs) self.new.report
            self.new.waits }
        ensures clock { self.new.clock ≡ self.old.clock }
    {
        let op = byte_at(frame, 0);
        let party = byte_at(frame, PARTY_AT);
        if is_look_up(op) && is_party(party) {
            let asked = u32::from(!is_refused(answers, n));
            let more = Figures {
                asked,
                ..Figures::default()
            };
            add_figures(&mut self.report, party, more);
            if count_of(answers, n, KIND_WAITING) != 0 {
                self.waits[party as usize] = Some(Wait {
                    since: self.clock,
                    txn: TxnId(number_at(frame, TXN_AT)),
                });
            }
        }
    }

    // A frame with its step's records.
    // Kept: area and count, since definitions of what is heard take both (`records_at`).
    pub(crate) fn note_frame(&mut self, frame: &[u8], answers: &[u8], n: usize)
        requires few { n ≤ step_records }
        requires clock { self.old.clock + n ≤ 4294967295 }
        ensures noted { (rs : _) → Stand answers.now n rs
            → Noted self.old.clock self.old.report self.old.waits (logged frame.now rs) self.new.clock
            self.new.report self.new.waits }
        ensures clock { self.new.clock ≤ self.old.clock + n }
    {
        self.clock += count_of(answers, n, KIND_TICKED);
        self.hear_all(answers, n);
        self.note_look_up(frame, answers, n);
    }

    // The waits that are open end with the tray.
    pub(crate) fn end_waits(&mut self)
        ensures { Gained self.old.report (λ p. left_of self.old.clock (wait_at self.old.waits p)) self.new.report }
    {
        for party in 1..=MAX_PARTY {
            if let Some(open) = self.waits[party as usize] {
                let more = Figures::of_wait(open.ticks(self.clock));
                add_figures(&mut self.report, party, more);
            }
        }
    }
}
