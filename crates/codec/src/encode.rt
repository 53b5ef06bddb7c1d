// A request's frame, written as bytes.
ghost use Rattle.std.specs.Prelude.{◌≡◌};
ghost use Rattle.rules.specs.Requests.{plain_frame, frame_of};
ghost use Rattle.codec.specs.Area.{FramePut};
ghost use Rattle.codec.specs.Parts.{frame_from};

use crate::bytes::{put, put_parts};
use crate::frames::length_of;
use crate::places::FIELDS_END;
use rules::look_up::look_up_op;
use rules::numbers::{OP_ABORT, OP_COMMIT, OP_CREATE, OP_NOTIFY, OP_RENEW, OP_TICK, OP_WRITE};
use rules::{Fields, Request};

// A frame by its parts. Byte 3 is 0.
#[derive(Clone, Copy)]
struct Parts {
    op: u8,
    party: u8,
    mask: u8,
    // The number of a transaction, or of the entry that a renewal names.
    txn: u32,
    // A lease, or a timeout.
    lease: u32,
    fields: Fields,
}

// Kept: a constant: a Default is none, and a call of it at each use is no plainer.
const NO_FIELDS: Fields = Fields {
    kind: 0,
    side: 0,
    image: 0,
    place: 0,
};

impl Parts {
    // Those of a frame without mask and fields.
    fn plain(op: u8, party: u8, txn: u32, lease: u32) -> Parts
        ensures { frame_from result ≡ plain_frame op party txn lease }
    {
        Parts {
            op,
            party,
            mask: 0,
            txn,
            lease,
            fields: NO_FIELDS,
        }
    }

    // As many of the 28 bytes as its operation's frames have, in front.
    // Kept: 0 where there is no room, since `put_frame` gives it on as it is.
    #[tactic(auto, using(crate::proofs::LengthLaws::at_most_28))]
    fn put(self, out: &mut [u8]) -> usize
        ensures { FramePut (frame_from self) out.old out.new result }
    {
        let n = length_of(self.op);
        if out.len() < n {
            return 0;
        }
        let mut bytes = [0; FIELDS_END];
        let front = [self.op, self.party, self.mask, 0];
        put_parts(&mut bytes, front, self.txn, self.lease, self.fields);
        put(out, 0, &bytes[..n]);
        n
    }
}

// The bytes of a request's frame, in front. Returns how many; 0, and nothing is written, where there is no room.
//
// Kept: 0 and no Option: it is public (DECISIONS 40), and such a contract may not change.
//
// Each kind puts its own parts: so its length is known where it is compiled, and no table of lengths comes of it.
pub fn put_frame(out: &mut [u8], q: Request) -> usize
    ensures { FramePut (frame_of q) out.old out.new result }
{
    match q {
        Request::Write(w) => Parts {
            mask: w.blanks,
            fields: w.fields,
            ..Parts::plain(OP_WRITE, w.party, w.txn.0, w.lease)
        }
        .put(out),
        Request::Find(l) => Parts {
            mask: l.mask,
            fields: l.fields,
            ..Parts::plain(
                look_up_op(l.takes, l.if_exists),
                l.party,
                l.txn.0,
                l.timeout,
            )
        }
        .put(out),
        Request::Create(party, lease) => Parts::plain(OP_CREATE, party, 0, lease).put(out),
        Request::Commit(party, txn) => Parts::plain(OP_COMMIT, party, txn.0, 0).put(out),
        Request::Abort(party, txn) => Parts::plain(OP_ABORT, party, txn.0, 0).put(out),
        Request::Renew(r) => Parts::plain(OP_RENEW, r.party, r.entry.0, r.lease).put(out),
        Request::Notify(n) => Parts {
            mask: n.mask,
            fields: n.fields,
            ..Parts::plain(OP_NOTIFY, n.party, 0, n.lease)
        }
        .put(out),
        Request::Tick => Parts::plain(OP_TICK, 0, 0, 0).put(out),
    }
}
