ghost use Rattle.std.specs.Prelude.{◌≡◌, ℕ, List, ◌++◌, is_ok, IfOk, if◌then◌else◌};
ghost use Rattle.std.specs.List.{flat_map};
ghost use Rattle.image.specs.Written.{number_bytes, record_bytes, header_with};

use image::{header_bytes, number_bytes, record_bytes};
use std::alloc::{AllocError, Global};
use std::marker::Model;
use timetable::{Connection, Counts};

/// An image in the making: a header, then transfer times, then connections, as the caller adds them. A contract sees
/// the bytes so far.
#[derive(Drop)]
pub struct Draft {
    bytes: Vec<u8>,
}

impl Model for Draft {
    ghost Value = { List ℕ };

    ghost view = { λ d. d.bytes.items };
}

impl Draft {
    /// A header with these numbers.
    pub fn new(heap: Global, counts: Counts) -> Result<Draft, AllocError>
        ensures { IfOk result (λ d. d ≡ header_with counts) }
    {
        let bytes = Vec::from_slice(heap, &header_bytes(counts))?;
        Ok(Draft { bytes })
    }

    /// A header with these numbers, then these transfer times, then these connections.
    pub fn of(
        heap: Global,
        counts: Counts,
        transfers: &[u16],
        connections: &[Connection],
    ) -> Result<Draft, AllocError>
        ensures { IfOk result (λ d. d ≡ header_with counts ++ (flat_map number_bytes transfers.now ++ flat_map record_bytes connections.now)) }
    {
        let mut draft = Draft::new(heap, counts)?;
        for minutes in transfers {
            draft.transfer(*minutes)?;
        }
        for c in connections {
            draft.connection(*c)?;
        }
        Ok(draft)
    }

    /// One transfer time more. Where memory fails, nothing is added.
    pub fn transfer(&mut self, minutes: u16) -> Result<(), AllocError>
        ensures { self.new ≡ (if is_ok result then self.old ++ number_bytes minutes else self.old) }
    {
        self.bytes.extend_from_slice(&number_bytes(minutes))
    }

    /// One connection more. Where memory fails, nothing is added.
    pub fn connection(&mut self, c: Connection) -> Result<(), AllocError>
        ensures { self.new ≡ (if is_ok result then self.old ++ record_bytes c else self.old) }
    {
        self.bytes.extend_from_slice(&record_bytes(c))
    }

    /// The bytes so far.
    pub fn bytes(&self) -> &[u8]
        ensures { result.now ≡ self.now }
    {
        self.bytes.as_slice()
    }
}
