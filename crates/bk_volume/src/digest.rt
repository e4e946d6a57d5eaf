//! The digest of a part of a file, taken in pieces.
ghost use Rattle.std.specs.Prelude.{◌≡◌, ◌≢◌, ◌≤◌, ◌<◌, ◌+◌, ◌-◌, ◌++◌, ◌^◌, List, ℕ, length, IfOk, OnOk, IsErr};
ghost use Rattle.std.specs.Bool.{MatchBool};
ghost use Rattle.bk_body.specs.Slots.{front_of, digest_in};
ghost use Rattle.bk_device.specs.Calls.{contents, read_at, ChangesNothing};
ghost use Rattle.bk_device.specs.Counts.{HasCause};
ghost use Rattle.sha2.specs.Hashers.{Holds256};
ghost use Rattle.sha2.specs.Sha256.{sha256};

use crate::piece::PIECE_BYTES;
use bk_device::{Device, Failed};
use sha2::{Digest, Sha256};

/// The bytes of a digest.
pub const DIGEST_BYTES: u64 = 32;

// Takes in a part of a file, as long as the buffer.
fn hash_piece<D: Device>(
    dev: &mut D,
    hasher: &mut Sha256,
    from: &str,
    at: u64,
    buffer: &mut [u8],
) -> Result<(), Failed>
    requires { D.tells → at + length buffer.old ≤ length (contents ((D.disk dev.old).files from.now)) }
    ensures hashed { D.tells → (bytes : List ℕ) → Holds256 hasher.old bytes → OnOk result (Holds256 hasher.new (bytes ++ read_at (contents ((D.disk dev.old).files from.now)) at (length buffer.old))) }
    ensures size { length buffer.new ≡ length buffer.old }
    ensures effect { D.tells → ChangesNothing (D.disk dev.old) (D.disk dev.new) }
    ensures cause { HasCause D.disk_faults D.tell_faults dev.old dev.new (IsErr result) }
{
    dev.read(from, at, buffer)?;
    hasher.update(buffer);
    Ok(())
}

// The digest of `len` bytes of a file from `at` on, which is read in pieces of the buffer's length.
fn digest_of<D: Device>(
    dev: &mut D,
    from: &str,
    at: u64,
    len: u64,
    buffer: &mut [u8],
) -> Result<[u8; 32], Failed>
    requires small { at + len < 2 ^ 64 }
    requires size { length buffer.old ≡ 1048576 }
    requires inside { D.tells → at + len ≤ length (contents ((D.disk dev.old).files from.now)) }
    ensures digest { D.tells → IfOk result (λ digest. digest ≡ sha256 (read_at (contents ((D.disk dev.old).files from.now)) at len)) }
    ensures size { length buffer.new ≡ length buffer.old }
    ensures effect { D.tells → ChangesNothing (D.disk dev.old) (D.disk dev.new) }
    ensures cause { HasCause D.disk_faults D.tell_faults dev.old dev.new (IsErr result) }
{
    let mut hasher = Sha256::new();
    'pieces: for i in 0..len / PIECE_BYTES {
        hash_piece(dev, &mut hasher, from, at + PIECE_BYTES * i, buffer)?;
    }
    let rest = len % PIECE_BYTES;
    let end = &mut buffer[..rest as usize];
    hash_piece(dev, &mut hasher, from, at + (len - rest), end)?;
    Ok(hasher.finalize())
}

// The digest that is stored at a place of a file.
fn stored_at<D: Device>(dev: &mut D, from: &str, at: u64) -> Result<[u8; 32], Failed>
    requires { D.tells → at + 32 ≤ length (contents ((D.disk dev.old).files from.now)) }
    ensures digest { D.tells → IfOk result (λ digest. digest ≡ read_at (contents ((D.disk dev.old).files from.now)) at 32) }
    ensures effect { D.tells → ChangesNothing (D.disk dev.old) (D.disk dev.new) }
    ensures cause { HasCause D.disk_faults D.tell_faults dev.old dev.new (IsErr result) }
{
    let mut stored = [0u8; 32];
    dev.read(from, at, &mut stored)?;
    Ok(stored)
}

/// The digest that a set stores, and the one of its other bytes.
#[derive(Clone, Copy)]
pub struct Digests {
    pub stored: [u8; 32],
    pub found: [u8; 32],
}

/// The digest that the last 32 of `len` bytes of a file store, and the one of the others.
pub fn read_digests<D: Device>(
    dev: &mut D,
    from: &str,
    at: u64,
    len: u64,
    buffer: &mut [u8],
) -> Result<Digests, Failed>
    requires long { 32 ≤ len }
    requires small { at + len < 2 ^ 64 }
    requires size { length buffer.old ≡ 1048576 }
    requires inside { D.tells → at + len ≤ length (contents ((D.disk dev.old).files from.now)) }
    ensures stored { D.tells → IfOk result (λ digests. digests.stored ≡ digest_in (read_at (contents ((D.disk dev.old).files from.now)) at len)) }
    ensures found { D.tells → IfOk result (λ digests. digests.found ≡ sha256 (front_of (read_at (contents ((D.disk dev.old).files from.now)) at len))) }
    ensures size { length buffer.new ≡ length buffer.old }
    ensures effect { D.tells → ChangesNothing (D.disk dev.old) (D.disk dev.new) }
    ensures cause { HasCause D.disk_faults D.tell_faults dev.old dev.new (IsErr result) }
{
    let found = digest_of(dev, from, at, len - DIGEST_BYTES, buffer)?;
    let stored = stored_at(dev, from, at + (len - DIGEST_BYTES))?;
    Ok(Digests { stored, found })
}

/// Whether the digest that a set stores is the one of its other bytes.
pub fn agree(digests: &Digests) -> bool
    ensures { MatchBool result (digests.now.stored ≡ digests.now.found) (digests.now.stored ≢ digests.now.found) }
{
    digests.stored == digests.found
}
