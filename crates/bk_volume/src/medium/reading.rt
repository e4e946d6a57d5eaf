//! Reading the sets of a medium.
ghost use Rattle.std.specs.Prelude.{◌≡◌, ◌≤◌, ◌<◌, ◌⊎◌, ◌↔◌, ◌+◌, ◌*◌, ◌^◌, ℕ, List, Some, None, length, vec_len, slice_get, drop, false, IfOk, IsErr, IsErrOf};
ghost use Rattle.bk_body.specs.Body.{Body, Extent};
ghost use Rattle.bk_bytes.specs.Field.{number_of};
ghost use Rattle.bk_device.specs.Calls.{contents, ChangesNothing};
ghost use Rattle.bk_device.specs.Counts.{HasCause};
ghost use Rattle.bk_gate.specs.Blobs.{sealed, spans_of, IsGateFile};
ghost use Rattle.bk_volume.specs.Media.{ShowsMedium, HasNoSet};
ghost use Rattle.bk_volume.specs.Stored.{IsOf, IsSetAt, Opens, GivesExtent, IsExtentAt};

use super::Medium;
use crate::error::{ReadError, SetError};
use crate::opening::open_blob;
use crate::piece::PIECE_BYTES;
use crate::staging::EXTENT_BYTES;
use crate::stored::StoredSet;
use bk_bytes::{get_u16, get_u32};
use bk_device::{Device, Failed};
use bk_gate::Gate;
use std::alloc::Global;

impl Medium {
    /// Opens the set at position `p`, from 1, by one pass over its bytes in pieces of at most 1 MiB. Changes nothing.
    ///
    /// `NoSuchSet` is answered exactly where `p` is 0 or above the count, `Damaged` exactly where the slot doesn't store the
    /// digest of its bytes, `NotMedia` only where it holds no set. A slot with its digest is opened where it has a front, and
    /// a log of that length: extents and log aren't looked at.
    pub fn open_set<D: Device>(
        &self,
        alloc: Global,
        dev: &mut D,
        p: usize,
    ) -> Result<StoredSet, SetError>
        requires fit { self.now.failed ≡ false }
        requires shows { D.tells → ShowsMedium (D.disk dev.old) self.now }
        ensures answer { D.tells → (blob : List ℕ) → IsSetAt ((D.disk dev.old).files self.now.name) p blob → Opens (contents ((D.disk dev.old).files self.now.name)) blob result }
        ensures no_such { IsErrOf result SetError.NoSuchSet ↔ HasNoSet self.now p }
        ensures effect { D.tells → ChangesNothing (D.disk dev.old) (D.disk dev.new) }
        ensures cause { HasCause D.disk_faults D.tell_faults dev.old dev.new (IsErrOf result SetError.Fault) }
    {
        if p == 0 {
            return Err(SetError::NoSuchSet);
        }
        if self.count() < p {
            return Err(SetError::NoSuchSet);
        }
        open_span(alloc, dev, &self.gate, p)
    }

    /// Reads the extent of index `i`, from 0, into 65,536 bytes, and gives its file and its number; nothing exactly where
    /// there is no such index. After `Failed` and where there is none the buffer may hold anything.
    pub fn extent_at<D: Device>(
        &self,
        dev: &mut D,
        set: &StoredSet,
        i: u32,
        buf: &mut [u8],
    ) -> Result<Option<(u16, u32)>, Failed>
        requires { length buf.old ≡ 65536 }
        ensures extent { D.tells → (body : Body) → IsOf (contents ((D.disk dev.old).files self.now.name)) body set.now → IfOk result (λ place. GivesExtent place buf.new (slice_get body.extents i)) }
        ensures none { IfOk result (λ place. place ≡ None ↔ set.now.extents ≤ i) }
        ensures size { length buf.new ≡ 65536 }
        ensures effect { D.tells → ChangesNothing (D.disk dev.old) (D.disk dev.new) }
        ensures cause { HasCause D.disk_faults D.tell_faults dev.old dev.new (IsErr result) }
    {
        if set.extents() <= i {
            return Ok(None);
        }
        let at = set.extent_place(i);
        let place = read_extent(dev, self.gate.name(), at, buf)?;
        Ok(Some(place))
    }

    /// The bytes of a set's log, in one buffer of their length.
    pub fn log_of<D: Device>(
        &self,
        alloc: Global,
        dev: &mut D,
        set: &StoredSet,
    ) -> Result<Vec<u8>, ReadError>
        ensures log { D.tells → (body : Body) → IsOf (contents ((D.disk dev.old).files self.now.name)) body set.now → IfOk result (λ log. log.items ≡ body.log) }
        ensures len { IfOk result (λ log. vec_len log ≡ set.now.log) }
        ensures effect { D.tells → ChangesNothing (D.disk dev.old) (D.disk dev.new) }
        ensures cause { HasCause D.disk_faults D.tell_faults dev.old dev.new (IsErrOf result ReadError.Fault) }
    {
        let mut log = vec![in alloc; 0u8; set.log_len() as usize]?;
        dev.read(self.gate.name(), set.log_place(), log.as_mut_slice())?;
        Ok(log)
    }
}

// Opens the set in the blob of this number, from 0, of a gate.
fn open_span<D: Device>(
    alloc: Global,
    dev: &mut D,
    gate: &Gate,
    i: usize,
) -> Result<StoredSet, SetError>
    requires fit { gate.now.failed ≡ false }
    requires there { i < length gate.now.spans }
    requires spans { D.tells → gate.now.spans ≡ spans_of (contents ((D.disk dev.old).files gate.now.name)) }
    requires gate_file { D.tells → IsGateFile (contents ((D.disk dev.old).files gate.now.name)) }
    ensures answer { D.tells → (blob : List ℕ) → slice_get (sealed ((D.disk dev.old).files gate.now.name)) i ≡ Some blob → Opens (contents ((D.disk dev.old).files gate.now.name)) blob result }
    ensures no_such { IsErrOf result SetError.NoSuchSet → ⊥ }
    ensures effect { D.tells → ChangesNothing (D.disk dev.old) (D.disk dev.new) }
    ensures cause { HasCause D.disk_faults D.tell_faults dev.old dev.new (IsErrOf result SetError.Fault) }
{
    let (at, len) = gate.span(i);
    let mut buffer = vec![in alloc; 0u8; PIECE_BYTES as usize]?;
    open_blob(alloc, dev, gate.name(), at, len, buffer.as_mut_slice())
}

// The file and the number in the six bytes before those of an extent.
fn place_in(head: &[u8; 6]) -> (u16, u32)
    ensures file { result.0 ≡ number_of 2 head.now }
    ensures extent { result.1 ≡ number_of 4 (drop 2 head.now) }
{
    match (get_u16(head, 0), get_u32(head, 2)) {
        (Some(file), Some(extent)) => (file, extent),
        _ => unreachable!(),
    }
}

// Reads the file and the number of an extent, and its bytes behind them.
fn read_extent<D: Device>(
    dev: &mut D,
    from: &str,
    at: u64,
    buf: &mut [u8],
) -> Result<(u16, u32), Failed>
    requires size { length buf.old ≡ 65536 }
    requires small { at + 6 < 2 ^ 64 }
    ensures extent { D.tells → (extent : Extent) → IsExtentAt (contents ((D.disk dev.old).files from.now)) at extent → IfOk result (λ place. extent ≡ record { file = place.0; extent = place.1; bytes = buf.new }) }
    ensures size { length buf.new ≡ 65536 }
    ensures effect { D.tells → ChangesNothing (D.disk dev.old) (D.disk dev.new) }
    ensures cause { HasCause D.disk_faults D.tell_faults dev.old dev.new (IsErr result) }
{
    let mut head = [0u8; 6];
    dev.read(from, at, &mut head)?;
    dev.read(from, at + 6, buf)?;
    Ok(place_in(&head))
}
