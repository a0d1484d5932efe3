//! Writing any timetable as an image.

ghost use Rattle.std.specs.Prelude.{◌≡◌, ℕ, ◌+◌, ◌*◌, ◌<◌, ◌≤◌, List, [], length, slice_index_or, MatchResult};
ghost use Rattle.std.proofs.Math.Seq.{paste};
ghost use Rattle.std.specs.List.{concat};
ghost use Rattle.refusals.specs.declared.refusal.Refusal.TheVariants.{ShortOutput};
ghost use Rattle.timetable.specs.Table.{at, transfer};
ghost use Rattle.image.specs.Promises.{Writes};
ghost use Rattle.image.specs.Written.{number_bytes, record_bytes, written};

use crate::layout::{RECORD_BYTES, TRANSFER_BYTES, record_place, transfer_place};
use crate::packing::{header_bytes, number_bytes, record_bytes};
use refusals::{Refusal, enough};
use std::convert::AsSlice;
use timetable::{ConnectionNo, Counts, Station, Timetable, connection_at, transfer_at};

/// Writes bytes into the output from a place on.
fn put(out: &mut [u8], place: usize, bytes: &[u8])
    requires { place + length bytes.now ≤ length out.old }
    ensures { out.new ≡ paste out.old place bytes.now (length bytes.now) }
{
    out[place..place + bytes.len()].copy_from_slice(bytes);
}

/// Writes the pieces of the numbers below n, each so many bytes wide, one after another from a place on.
fn put_pieces<P: AsSlice<u8> + Drop, F: Fn(u16) -> P>(
    out: &mut [u8],
    place: usize,
    width: usize,
    n: u16,
    piece: F,
)
    requires callable { F.IsAlwaysCallable piece }
    requires wide { (i : ℕ) (r : _) → i < n → F.post piece i r → length (P.items r) ≡ width }
    requires fits { place + width * n ≤ length out.old }
    ensures { (xs : List (List ℕ)) → length xs ≡ n → ((i : ℕ) (r : _) → i < n → F.post piece i r → P.items r ≡ slice_index_or xs i []) → out.new ≡ paste out.old place (concat xs) (width * n) }
{
    // The output is not gone over in chunks: a proof knows nothing of what is written through those of an iterator.
    for i in 0..n {
        put(out, place + width * usize::from(i), piece(i).as_slice());
    }
}

/// Writes a timetable's image at the front of the output, where it opens as the same timetable, and answers its
/// length; the output behind it stays. Refused: `ShortOutput`, and the output is as it was. Takes one pass over the
/// timetable.
pub fn write<T: Timetable>(t: &T, out: &mut [u8]) -> Result<usize, Refusal>
    ensures { MatchResult result (λ n. Writes (T.Means.meaning t.now) out.old out.new n) (λ e. (length out.old < length (written (T.Means.meaning t.now))) × (e ≡ ShortOutput (length (written (T.Means.meaning t.now)))) × (out.new ≡ out.old)) }
{
    let counts = Counts::of(t);
    let needed = record_place(counts.stations, counts.connections);
    enough(out.len(), needed, Refusal::ShortOutput(needed))?;
    put(out, 0, &header_bytes(counts));
    let transfer = |v| -> [u8; 2]
        ensures { result ≡ number_bytes (transfer (T.Means.meaning t.entry.now) v) }
    { number_bytes(transfer_at(t, Station(v))) };
    put_pieces(
        out,
        transfer_place(0),
        TRANSFER_BYTES,
        counts.stations,
        transfer,
    );
    let record = |c| -> [u8; 12]
        ensures { result ≡ record_bytes (at (T.Means.meaning t.entry.now) c) }
    { record_bytes(connection_at(t, ConnectionNo(c))) };
    put_pieces(
        out,
        record_place(counts.stations, 0),
        RECORD_BYTES,
        counts.connections,
        record,
    );
    Ok(needed)
}
