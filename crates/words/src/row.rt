// The rows of the four tables of a space: where each table lies, and how a row is read from its words and written.
// Only this module and `rows` know offsets.
ghost use Rattle.std.specs.Prelude.{◌≡◌, ◌<◌, ℕ, List, get_or, length, set};
ghost use Rattle.std.proofs.Common.{arith};
ghost use Rattle.rules.specs.Numbers.{max_entries, max_txns, max_waits, max_registrations};
ghost use Rattle.rules.specs.State.{Model, with_entries, with_txns, with_waits, with_registrations};
ghost use Rattle.rules.specs.State.{with_next_entry, with_next_txn, with_next_registration};
ghost use Rattle.rules.specs.Words.{view, entry_words, txn_words, wait_words, registration_words, entries_at};
ghost use Rattle.rules.specs.Words.{entry_width, entry_count_at, txns_at, txn_width, txn_count_at, waits_at};
ghost use Rattle.rules.specs.Words.{wait_width, wait_count_at, registrations_at, registration_width};
ghost use Rattle.rules.specs.Words.{registration_count_at, next_entry_at, next_txn_at, next_registration_at};
ghost use Rattle.rules.specs.Words.{space_words};
ghost use Rattle.tables.specs.Rows.{FitsWord};
ghost use Rattle.tables.specs.Table.{Table, Placed, Turned, all};
ghost use Rattle.tables.specs.Tables.{entry_table, txn_table, wait_table, registration_table};
ghost use Rattle.words.specs.NumberLaws.{next_entry_in, next_entry_set, next_txn_in, next_txn_set};
ghost use Rattle.words.specs.NumberLaws.{next_registration_in, next_registration_set};
ghost use Rattle.words.specs.TableLaws.{entries_placed, entries_in, entries_turned, txns_placed, txns_in, txns_turned};
ghost use Rattle.words.specs.TableLaws.{waits_placed, waits_in, waits_turned, registrations_placed};
ghost use Rattle.words.specs.TableLaws.{registrations_in, registrations_turned};

use rules::look_up::{is_if_exists, is_take, look_up_op};
use rules::numbers::{MAX_ENTRIES, MAX_REGISTRATIONS, MAX_TXNS, MAX_WAITS};
use rules::{
    Entry, EntryId, Fields, LookUp, Mark, Registration, RegistrationId, Txn, TxnId, Until,
};

// How many values a byte has: a word that stands for one is read by its remainder.
const BYTE_VALUES: u32 = 256;

const SLOTS: u32 = MAX_TXNS as u32;

// A row of a table.
pub trait Row: Copy {
    // Its table, and the rows of a model that the table holds.
    ghost table: { Table Self };

    ghost rows: { Model → List Self };

    ghost with_rows: { List Self → Model → Model };

    // What a row can hold, and its words.
    ghost Fits: { Self → Type 0 };

    ghost words_of: { Self → List ℕ };

    ghost COUNT_AT: { ℕ };

    ghost AT: { ℕ };

    ghost WIDTH: { ℕ };

    ghost MOST: { ℕ };

    // Where the count of rows stands, where the rows begin, the words of each, how many there are at most.
    const COUNT_AT: usize;

    const AT: usize;

    const WIDTH: usize;

    const MOST: usize;

    fn read(words: &[u32]) -> Self
        requires { length words.now ≡ WIDTH }
        ensures { result ≡ table.read words.now };

    fn write(self, words: &mut [u32])
        requires { length words.old ≡ WIDTH }
        ensures words { words.new ≡ words_of self }
        ensures back { Fits self → table.read (words_of self) ≡ self };

    ghost placed: { Placed table AT WIDTH MOST COUNT_AT };

    ghost rows_in: { (ws : List ℕ) → rows (view ws) ≡ all table ws };

    ghost turned: { (ws ws₀ : List ℕ) (xs : List Self) → Turned table ws ws₀ xs → view ws ≡ with_rows xs (view ws₀) };
}

impl Row for Entry {
    ghost table = { entry_table };

    ghost rows = { λ m. m.entries };

    ghost with_rows = { with_entries };

    ghost Fits = { λ e. FitsWord e.end };

    ghost words_of = { entry_words };

    ghost COUNT_AT = { entry_count_at };

    ghost AT = { entries_at };

    ghost WIDTH = { entry_width };

    ghost MOST = { max_entries };

    const COUNT_AT: usize = 3;

    const AT: usize = 8;

    const WIDTH: usize = 9;

    const MOST: usize = MAX_ENTRIES;

    ghost placed = { entries_placed };

    ghost rows_in = { entries_in };

    ghost turned = { entries_turned };

    #[tactic(auto, unfolding(rules::specs::Words::entry_of))]
    fn read(words: &[u32]) -> Entry {
        let [readers, blanks, writer, _] = words[8].to_le_bytes();
        Entry {
            id: EntryId(words[0]),
            fields: Mark {
                kind: words[1],
                side: words[2],
                image: words[3],
                place: words[4],
                blanks,
            },
            end: Until::from(words[5]),
            private_to: TxnId(words[6]),
            taken_by: TxnId(words[7]),
            readers,
            writer,
        }
    }

    fn write(self, words: &mut [u32]) {
        words.copy_from_slice(&[
            self.id.0,
            self.fields.kind,
            self.fields.side,
            self.fields.image,
            self.fields.place,
            u32::from(self.end),
            self.private_to.0,
            self.taken_by.0,
            u32::from_le_bytes([self.readers, self.fields.blanks, self.writer, 0]),
        ]);
    }
}

impl Row for Txn {
    ghost table = { txn_table };

    ghost rows = { λ m. m.txns };

    ghost with_rows = { with_txns };

    ghost Fits = { λ t. (t.slot < max_txns) × FitsWord t.end };

    ghost words_of = { txn_words };

    ghost COUNT_AT = { txn_count_at };

    ghost AT = { txns_at };

    ghost WIDTH = { txn_width };

    ghost MOST = { max_txns };

    const COUNT_AT: usize = 4;

    const AT: usize = Entry::AT + Entry::WIDTH * Entry::MOST;

    const WIDTH: usize = 4;

    const MOST: usize = MAX_TXNS;

    ghost placed = { txns_placed };

    ghost rows_in = { txns_in };

    ghost turned = { txns_turned };

    #[tactic(auto, unfolding(rules::specs::Words::txn_of))]
    fn read(words: &[u32]) -> Txn {
        Txn {
            id: TxnId(words[0]),
            party: (words[1] % BYTE_VALUES) as u8,
            end: Until::from(words[2]),
            slot: (words[3] % SLOTS) as u8,
        }
    }

    fn write(self, words: &mut [u32]) {
        words.copy_from_slice(&[
            self.id.0,
            u32::from(self.party),
            u32::from(self.end),
            u32::from(self.slot),
        ]);
    }
}

impl Row for LookUp {
    ghost table = { wait_table };

    ghost rows = { λ m. m.waits };

    ghost with_rows = { with_waits };

    ghost Fits = { λ w. FitsWord w.deadline };

    ghost words_of = { wait_words };

    ghost COUNT_AT = { wait_count_at };

    ghost AT = { waits_at };

    ghost WIDTH = { wait_width };

    ghost MOST = { max_waits };

    const COUNT_AT: usize = 5;

    const AT: usize = Txn::AT + Txn::WIDTH * Txn::MOST;

    const WIDTH: usize = 9;

    const MOST: usize = MAX_WAITS;

    ghost placed = { waits_placed };

    ghost rows_in = { waits_in };

    ghost turned = { waits_turned };

    #[tactic(auto, unfolding(rules::specs::Words::wait_of))]
    fn read(words: &[u32]) -> LookUp {
        LookUp {
            party: (words[0] % BYTE_VALUES) as u8,
            takes: is_take(words[1]),
            if_exists: is_if_exists(words[1]),
            mask: (words[2] % BYTE_VALUES) as u8,
            fields: Fields {
                kind: words[3],
                side: words[4],
                image: words[5],
                place: words[6],
            },
            txn: TxnId(words[7]),
            deadline: Until::from(words[8]),
        }
    }

    fn write(self, words: &mut [u32]) {
        words.copy_from_slice(&[
            u32::from(self.party),
            u32::from(look_up_op(self.takes, self.if_exists)),
            u32::from(self.mask),
            self.fields.kind,
            self.fields.side,
            self.fields.image,
            self.fields.place,
            self.txn.0,
            u32::from(self.deadline),
        ]);
    }
}

impl Row for Registration {
    ghost table = { registration_table };

    ghost rows = { λ m. m.registrations };

    ghost with_rows = { with_registrations };

    ghost Fits = { λ g. FitsWord g.end };

    ghost words_of = { registration_words };

    ghost COUNT_AT = { registration_count_at };

    ghost AT = { registrations_at };

    ghost WIDTH = { registration_width };

    ghost MOST = { max_registrations };

    const COUNT_AT: usize = 7;

    const AT: usize = LookUp::AT + LookUp::WIDTH * LookUp::MOST;

    const WIDTH: usize = 9;

    const MOST: usize = MAX_REGISTRATIONS;

    ghost placed = { registrations_placed };

    ghost rows_in = { registrations_in };

    ghost turned = { registrations_turned };

    #[tactic(auto, unfolding(rules::specs::Words::registration_of))]
    fn read(words: &[u32]) -> Registration {
        Registration {
            id: RegistrationId(words[0]),
            party: (words[1] % BYTE_VALUES) as u8,
            mask: (words[2] % BYTE_VALUES) as u8,
            fields: Fields {
                kind: words[3],
                side: words[4],
                image: words[5],
                place: words[6],
            },
            end: Until::from(words[7]),
            total: words[8],
        }
    }

    fn write(self, words: &mut [u32]) {
        words.copy_from_slice(&[
            self.id.0,
            u32::from(self.party),
            u32::from(self.mask),
            self.fields.kind,
            self.fields.side,
            self.fields.image,
            self.fields.place,
            u32::from(self.end),
            self.total,
        ]);
    }
}

// A row whose number is counted from 1.
pub trait Numbered: Row {
    ghost next: { Model → ℕ };

    ghost with_next: { ℕ → Model → Model };

    ghost NEXT_AT: { ℕ };

    // Where the number that the next one gets stands.
    const NEXT_AT: usize;

    ghost early: { NEXT_AT < 8 };

    ghost next_in: { (ws : List ℕ) → next (view ws) ≡ get_or ws NEXT_AT 0 };

    ghost next_set: { (ws : List ℕ) (n : ℕ) → length ws ≡ space_words
        → view (set ws NEXT_AT n) ≡ with_next n (view ws) };
}

impl Numbered for Entry {
    ghost next = { λ m. m.next_entry };

    ghost with_next = { with_next_entry };

    ghost NEXT_AT = { next_entry_at };

    const NEXT_AT: usize = 1;

    ghost early = { omega arith };

    ghost next_in = { next_entry_in };

    ghost next_set = { next_entry_set };
}

impl Numbered for Txn {
    ghost next = { λ m. m.next_txn };

    ghost with_next = { with_next_txn };

    ghost NEXT_AT = { next_txn_at };

    const NEXT_AT: usize = 2;

    ghost early = { omega arith };

    ghost next_in = { next_txn_in };

    ghost next_set = { next_txn_set };
}

impl Numbered for Registration {
    ghost next = { λ m. m.next_registration };

    ghost with_next = { with_next_registration };

    ghost NEXT_AT = { next_registration_at };

    const NEXT_AT: usize = 6;

    ghost early = { omega arith };

    ghost next_in = { next_registration_in };

    ghost next_set = { next_registration_set };
}
