//! Opening a set by where its bytes lie in a file.
ghost use Rattle.std.specs.Prelude.{◌≡◌, ◌≤◌, ◌<◌, ◌+◌, ◌^◌, Some, length, IfOk, IfSome, IsErr, IsErrOf};
ghost use Rattle.bk_body.specs.Body.{Body};
ghost use Rattle.bk_body.specs.Conditions.{IsBody};
ghost use Rattle.bk_body.specs.Spelling.{body_bytes};
ghost use Rattle.bk_bytes.specs.Field.{number_of};
ghost use Rattle.bk_device.specs.Calls.{contents, read_at, ChangesNothing};
ghost use Rattle.bk_device.specs.Counts.{HasCause};
ghost use Rattle.bk_volume.specs.Opening.{SplitsFront, IsFrontOf, GivesFront, AreBehind, GivesSet, answer_of};
ghost use Rattle.bk_volume.specs.Stored.{Opens};

use crate::digest::{DIGEST_BYTES, agree, read_digests};
use crate::error::{ReadError, SetError};
use crate::staging::EXTENT_BYTES;
use crate::stored::StoredSet;
use bk_body::{Front, read_front};
use bk_bytes::get_u64;
use bk_device::{Device, Failed};
use bk_reading::Unread;
use std::alloc::{AllocError, Global};

/// No front of a set takes more bytes.
const FRONT_BYTES: u64 = 131_072;

// The number in eight bytes.
fn number_in(bytes: &[u8; 8]) -> u64
    ensures { result ≡ number_of 8 bytes.now }
{
    match get_u64(bytes, 0) {
        Some(number) => number,
        None => unreachable!(),
    }
}

// The number in eight bytes of a file.
fn read_number<D: Device>(dev: &mut D, from: &str, at: u64) -> Result<u64, Failed>
    requires { D.tells → at + 8 ≤ length (contents ((D.disk dev.old).files from.now)) }
    ensures number { D.tells → IfOk result (λ number. number ≡ number_of 8 (read_at (contents ((D.disk dev.old).files from.now)) at 8)) }
    ensures effect { D.tells → ChangesNothing (D.disk dev.old) (D.disk dev.new) }
    ensures cause { HasCause D.disk_faults D.tell_faults dev.old dev.new (IsErr result) }
{
    let mut bytes = [0u8; 8];
    dev.read(from, at, &mut bytes)?;
    Ok(number_in(&bytes))
}

// The length of the log that stands with its length behind `extents` bytes, if it ends `len` bytes behind `at`.
fn read_log_size<D: Device>(
    dev: &mut D,
    from: &str,
    at: u64,
    len: u64,
    extents: u64,
) -> Result<Option<u64>, Failed>
    requires small { at + len < 2 ^ 64 }
    requires few { extents + 8 < 2 ^ 64 }
    requires inside { D.tells → at + len ≤ length (contents ((D.disk dev.old).files from.now)) }
    ensures size { D.tells → (body : Body) → AreBehind body extents (read_at (contents ((D.disk dev.old).files from.now)) at len) → IfOk result (λ size. size ≡ Some (length body.log)) }
    ensures inside { IfOk result (λ size. IfSome size (λ s. extents + 8 + s ≡ len)) }
    ensures effect { D.tells → ChangesNothing (D.disk dev.old) (D.disk dev.new) }
    ensures cause { HasCause D.disk_faults D.tell_faults dev.old dev.new (IsErr result) }
{
    let least = extents + 8;
    if len < least {
        return Ok(None);
    }
    let size = read_number(dev, from, at + extents)?;
    let rest = len - least;
    if size != rest {
        return Ok(None);
    }
    Ok(Some(size))
}

// The front at the front of bytes, and how many of them it takes, if there is one.
fn split_front(alloc: Global, bytes: &[u8]) -> Result<Option<(Front, usize)>, AllocError>
    ensures front { IfOk result (SplitsFront bytes.now) }
    ensures inside { IfOk result (λ read. IfSome read (λ r. r.1 ≤ length bytes.now)) }
{
    match read_front(alloc, bytes) {
        Ok((front, rest)) => Ok(Some((front, bytes.len() - rest.len()))),
        Err(Unread::NoMemory) => Err(AllocError),
        Err(Unread::Unspelled) => Ok(None),
    }
}

// The front of a set whose body lies in `len` bytes of a file from `at` on, and how many of them it takes.
fn read_front_at<D: Device>(
    alloc: Global,
    dev: &mut D,
    from: &str,
    at: u64,
    len: u64,
    buffer: &mut [u8],
) -> Result<Option<(Front, usize)>, ReadError>
    requires size { length buffer.old ≡ 1048576 }
    requires inside { D.tells → at + len ≤ length (contents ((D.disk dev.old).files from.now)) }
    ensures front { D.tells → (body : Body) → IsBody body → read_at (contents ((D.disk dev.old).files from.now)) at len ≡ body_bytes body → IfOk result (GivesFront body) }
    ensures inside { IfOk result (λ read. IfSome read (λ r. r.1 ≤ len)) }
    ensures effect { D.tells → ChangesNothing (D.disk dev.old) (D.disk dev.new) }
    ensures cause { HasCause D.disk_faults D.tell_faults dev.old dev.new (IsErrOf result ReadError.Fault) }
{
    let size = len.min(FRONT_BYTES);
    let bytes = &mut buffer[..size as usize];
    dev.read(from, at, bytes)?;
    let found = split_front(alloc, bytes)?;
    Ok(found)
}

// The set with this front, which takes the first `size` of `len` bytes of a file from `at` on, if the others are extents and
// a log.
fn behind_front<D: Device>(
    dev: &mut D,
    from: &str,
    at: u64,
    len: u64,
    front: Front,
    size: u64,
) -> Result<Option<StoredSet>, Failed>
    requires small { at + len < 2 ^ 64 }
    requires there { size ≤ len }
    requires inside { D.tells → at + len ≤ length (contents ((D.disk dev.old).files from.now)) }
    ensures set { D.tells → (body : Body) → IsBody body → read_at (contents ((D.disk dev.old).files from.now)) at len ≡ body_bytes body → IsFrontOf body front size → IfOk result (GivesSet (contents ((D.disk dev.old).files from.now)) body) }
    ensures effect { D.tells → ChangesNothing (D.disk dev.old) (D.disk dev.new) }
    ensures cause { HasCause D.disk_faults D.tell_faults dev.old dev.new (IsErr result) }
{
    let extents = EXTENT_BYTES * u64::from(front.extents);
    match read_log_size(dev, from, at + size, len - size, extents) {
        Ok(Some(log)) => Ok(Some(StoredSet {
            front,
            at: at + size,
            log,
        })),
        Ok(None) => {
            drop(front);
            Ok(None)
        }
        Err(e) => {
            drop(front);
            Err(e)
        }
    }
}

// The set whose body lies in `len` bytes of a file from `at` on, if it is one.
fn open_body<D: Device>(
    alloc: Global,
    dev: &mut D,
    from: &str,
    at: u64,
    len: u64,
    buffer: &mut [u8],
) -> Result<Option<StoredSet>, ReadError>
    requires small { at + len < 2 ^ 64 }
    requires size { length buffer.old ≡ 1048576 }
    requires inside { D.tells → at + len ≤ length (contents ((D.disk dev.old).files from.now)) }
    ensures set { D.tells → (body : Body) → IsBody body → read_at (contents ((D.disk dev.old).files from.now)) at len ≡ body_bytes body → IfOk result (GivesSet (contents ((D.disk dev.old).files from.now)) body) }
    ensures effect { D.tells → ChangesNothing (D.disk dev.old) (D.disk dev.new) }
    ensures cause { HasCause D.disk_faults D.tell_faults dev.old dev.new (IsErrOf result ReadError.Fault) }
{
    let Some((front, size)) = read_front_at(alloc, dev, from, at, len, buffer)? else {
        return Ok(None);
    };
    let set = behind_front(dev, from, at, len, front, size as u64)?;
    Ok(set)
}

// What was opened, or why it wasn't.
fn opened(set: Result<Option<StoredSet>, ReadError>) -> Result<StoredSet, SetError>
    ensures { result ≡ answer_of set }
{
    match set {
        Ok(Some(set)) => Ok(set),
        Ok(None) => Err(SetError::NotMedia),
        Err(ReadError::Fault) => Err(SetError::Fault),
        Err(ReadError::NoMemory) => Err(SetError::NoMemory),
    }
}

/// Opens the set whose bytes are `len` bytes of a file from `at` on: one pass over them for the digest, in pieces of the
/// buffer's length, and then a read of its front.
pub fn open_blob<D: Device>(
    alloc: Global,
    dev: &mut D,
    from: &str,
    at: u64,
    len: u64,
    buffer: &mut [u8],
) -> Result<StoredSet, SetError>
    requires small { at + len < 2 ^ 64 }
    requires size { length buffer.old ≡ 1048576 }
    requires inside { D.tells → at + len ≤ length (contents ((D.disk dev.old).files from.now)) }
    ensures answer { D.tells → Opens (contents ((D.disk dev.old).files from.now)) (read_at (contents ((D.disk dev.old).files from.now)) at len) result }
    ensures no_such { IsErrOf result SetError.NoSuchSet → ⊥ }
    ensures effect { D.tells → ChangesNothing (D.disk dev.old) (D.disk dev.new) }
    ensures cause { HasCause D.disk_faults D.tell_faults dev.old dev.new (IsErrOf result SetError.Fault) }
{
    if len < DIGEST_BYTES {
        return Err(SetError::NotMedia);
    }
    let digests = read_digests(dev, from, at, len, buffer)?;
    if agree(&digests) {
        let set = open_body(alloc, dev, from, at, len - DIGEST_BYTES, buffer);
        opened(set)
    } else {
        Err(SetError::Damaged {
            stored: digests.stored,
            found: digests.found,
        })
    }
}
