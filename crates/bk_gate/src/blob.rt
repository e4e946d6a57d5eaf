// The writes that put a blob behind the end of a gate file.
ghost use Rattle.std.specs.Prelude.{◌≡◌, ◌≢◌, ◌≤◌, ◌<◌, ◌+◌, ◌^◌, ◌++◌, ◌∷◌, ◌⊎◌, [], List, ℕ, Some, length, take, drop, true, false, slice_index, IfOk, OnOk, OnErr, IsErr};
ghost use Rattle.bk_lemmas.specs.Numbers.{number, number_bytes};
ghost use Rattle.bk_gate.specs.Blobs.{sealed};
ghost use Rattle.bk_gate.specs.Gate.{Stands, Quiet, IsAt, IsPrepared, IsLaid, IfThere};
ghost use Rattle.bk_device.specs.Calls.{contents, written, read_at};
ghost use Rattle.bk_device.specs.Counts.{HasCause};
ghost use Rattle.bk_device.specs.Disk.{IsDurable};
ghost use Rattle.bk_device.specs.Effects.{Effect, IsName};

use bk_device::{Device, Failed, remove_durably, write_durably};
use byteorder::{ByteOrder, LittleEndian};

// Sees to it that the gate byte at the end is closed.
pub fn close<D: Device>(dev: &mut D, name: &str, end: u64, is_closed: bool) -> Result<(), Failed>
    requires { D.tells → (spans : List (ℕ × ℕ)) × IsAt spans end is_closed name.now (D.disk dev.old) }
    ensures quiet { D.tells → (spans : List (ℕ × ℕ)) → IsAt spans end is_closed name.now (D.disk dev.old) → OnOk result (Quiet spans end name.now (D.disk dev.new)) }
    ensures sealed { D.tells → OnOk result (sealed ((D.disk dev.new).files name.now) ≡ sealed ((D.disk dev.old).files name.now)) }
    ensures crash { D.tells → Effect (IsName name.now) (λ image. sealed (image name.now) ≡ sealed ((D.disk dev.old).files name.now)) (D.disk dev.old) (D.disk dev.new) }
    ensures cause { HasCause D.disk_faults D.tell_faults dev.old dev.new (IsErr result) }
{
    if is_closed {
        return Ok(());
    }
    write_durably(dev, name, end, &[0])
}

// Writes bytes behind the closed gate byte at the end. They aren't durable yet.
pub fn append<D: Device>(
    dev: &mut D,
    name: &str,
    end: u64,
    at: u64,
    bytes: &[u8],
) -> Result<(), Failed>
    requires behind { at < 2 ^ 62 → end < at }
    requires inside { D.tells → at ≤ length (contents ((D.disk dev.old).files name.now)) }
    requires quiet { D.tells → (spans : List (ℕ × ℕ)) × Quiet spans end name.now (D.disk dev.old) }
    ensures quiet { D.tells → (spans : List (ℕ × ℕ)) → Quiet spans end name.now (D.disk dev.old) → OnOk result (Quiet spans end name.now (D.disk dev.new)) }
    ensures written { D.tells → OnOk result ((D.disk dev.new).files name.now ≡ Some (written (contents ((D.disk dev.old).files name.now)) at bytes.now)) }
    ensures sealed { D.tells → OnOk result (sealed ((D.disk dev.new).files name.now) ≡ sealed ((D.disk dev.old).files name.now)) }
    ensures small { OnOk result (at + length bytes.now < 2 ^ 62) }
    ensures crash { D.tells → Effect (IsName name.now) (λ image. sealed (image name.now) ≡ sealed ((D.disk dev.old).files name.now)) (D.disk dev.old) (D.disk dev.new) }
    ensures cause { HasCause D.disk_faults D.tell_faults dev.old dev.new (IsErr result) }
{
    dev.write(name, at, bytes)
}

pub fn read_number(bytes: &[u8]) -> u64
    requires { length bytes.now ≡ 8 }
    ensures { result ≡ number bytes.now }
{
    LittleEndian::read_u64(bytes)
}

// The eight bytes of a number, the lowest first.
pub fn spelled(n: u64) -> [u8; 8]
    ensures { result ≡ number_bytes n }
{
    let mut bytes = [0u8; 8];
    LittleEndian::write_u64(&mut bytes, n);
    bytes
}

// Makes what was written behind the closed gate byte durable.
fn settle<D: Device>(dev: &mut D, name: &str, end: u64) -> Result<(), Failed>
    requires { D.tells → (spans : List (ℕ × ℕ)) × Quiet spans end name.now (D.disk dev.old) }
    ensures quiet { D.tells → (spans : List (ℕ × ℕ)) → Quiet spans end name.now (D.disk dev.old) → OnOk result (Quiet spans end name.now (D.disk dev.new)) }
    ensures durable { D.tells → OnOk result (IsDurable (D.disk dev.new) name.now) }
    ensures same { D.tells → OnOk result ((D.disk dev.new).files name.now ≡ (D.disk dev.old).files name.now) }
    ensures crash { D.tells → Effect (IsName name.now) (λ image. sealed (image name.now) ≡ sealed ((D.disk dev.old).files name.now)) (D.disk dev.old) (D.disk dev.new) }
    ensures cause { HasCause D.disk_faults D.tell_faults dev.old dev.new (IsErr result) }
{
    dev.sync(name)
}

// Writes a length behind the closed gate byte at the end. What stands behind it stays.
fn lay_length<D: Device>(dev: &mut D, name: &str, end: u64, size: u64) -> Result<(), Failed>
    requires { D.tells → (spans : List (ℕ × ℕ)) × Quiet spans end name.now (D.disk dev.old) }
    ensures quiet { D.tells → (spans : List (ℕ × ℕ)) → Quiet spans end name.now (D.disk dev.old) → OnOk result (Quiet spans end name.now (D.disk dev.new)) }
    ensures size { D.tells → OnOk result (read_at (contents ((D.disk dev.new).files name.now)) (end + 1) 8 ≡ number_bytes size) }
    ensures room { D.tells → OnOk result (end + 9 ≤ length (contents ((D.disk dev.new).files name.now))) }
    ensures longer { D.tells → OnOk result (length (contents ((D.disk dev.old).files name.now)) ≤ length (contents ((D.disk dev.new).files name.now))) }
    ensures blob { D.tells → OnOk result (IfThere end (contents ((D.disk dev.old).files name.now)) (contents ((D.disk dev.new).files name.now))) }
    ensures sealed { D.tells → OnOk result (sealed ((D.disk dev.new).files name.now) ≡ sealed ((D.disk dev.old).files name.now)) }
    ensures small { OnOk result (end + 9 < 2 ^ 62) }
    ensures crash { D.tells → Effect (IsName name.now) (λ image. sealed (image name.now) ≡ sealed ((D.disk dev.old).files name.now)) (D.disk dev.old) (D.disk dev.new) }
    ensures cause { HasCause D.disk_faults D.tell_faults dev.old dev.new (IsErr result) }
{
    append(dev, name, end, end.saturating_add(1), &spelled(size))
}

// Writes the length of the blob behind the end, and a closed gate byte behind the blob, durably.
fn finish<D: Device>(dev: &mut D, name: &str, end: u64, len: u64) -> Result<(), Failed>
    requires inside { D.tells → end + 9 + len ≤ length (contents ((D.disk dev.old).files name.now)) }
    requires quiet { D.tells → (spans : List (ℕ × ℕ)) × Quiet spans end name.now (D.disk dev.old) }
    ensures quiet { D.tells → (spans : List (ℕ × ℕ)) → Quiet spans end name.now (D.disk dev.old) → OnOk result (Quiet spans end name.now (D.disk dev.new)) }
    ensures durable { D.tells → OnOk result (IsDurable (D.disk dev.new) name.now) }
    ensures prepared { D.tells → OnOk result (IsPrepared end len (contents ((D.disk dev.new).files name.now))) }
    ensures blob { D.tells → OnOk result (read_at (contents ((D.disk dev.new).files name.now)) (end + 9) len ≡ read_at (contents ((D.disk dev.old).files name.now)) (end + 9) len) }
    ensures sealed { D.tells → OnOk result (sealed ((D.disk dev.new).files name.now) ≡ sealed ((D.disk dev.old).files name.now)) }
    ensures small { OnOk result (end + 9 + len < 2 ^ 62) }
    ensures crash { D.tells → Effect (IsName name.now) (λ image. sealed (image name.now) ≡ sealed ((D.disk dev.old).files name.now)) (D.disk dev.old) (D.disk dev.new) }
    ensures cause { HasCause D.disk_faults D.tell_faults dev.old dev.new (IsErr result) }
{
    lay_length(dev, name, end, len)?;
    append(
        dev,
        name,
        end,
        end.saturating_add(9).saturating_add(len),
        &[0],
    )?;
    settle(dev, name, end)
}

// Puts bytes behind the first eight.
fn put_behind(room: &mut [u8], bytes: &[u8])
    requires { 8 + length bytes.now ≤ length room.old }
    ensures { room.new ≡ take 8 room.old ++ bytes.now ++ drop (8 + length bytes.now) room.old }
{
    room[8..8 + bytes.len()].copy_from_slice(bytes);
}

// Puts the length of a blob, its bytes and a closed gate byte one behind the other.
fn put_all(room: &mut [u8], bytes: &[u8])
    requires { 9 + length bytes.now ≤ length room.old }
    ensures { take (9 + length bytes.now) room.new ≡ number_bytes (length bytes.now) ++ (bytes.now ++ 0 ∷ []) }
{
    LittleEndian::write_u64(room, bytes.len() as u64);
    put_behind(room, bytes);
    room[8 + bytes.len()] = 0;
}

// The most bytes of a blob that is written at once with its length and a closed gate byte.
const SHORT: usize = 65_527;

// The room in which they are put together, of 64 KiB.
const ROOM: usize = SHORT + 9;

// A file grows by so many bytes at once: a write that doesn't make a file longer is durable sooner.
const STEP: usize = 16_384;

// How many bytes of the room are written: up to the end of a step, as far as they go.
fn laid_len(end: u64, len: usize) -> usize
    requires { len ≤ 65527 }
    ensures whole { 9 + len ≤ result }
    ensures fits { result ≤ 65536 }
{
    let least = len + 9;
    let over = ((end % STEP as u64) as usize + 1 + least) % STEP;
    if over == 0 {
        return least;
    }
    (least + (STEP - over)).min(ROOM)
}

// Writes a blob of at most SHORT bytes behind the closed gate byte at the end, with its length, a closed gate byte and zeros up to
// the end of a step, at once and durably.
fn lay_short<D: Device>(dev: &mut D, name: &str, end: u64, bytes: &[u8]) -> Result<(), Failed>
    requires short { length bytes.now ≤ 65527 }
    requires quiet { D.tells → (spans : List (ℕ × ℕ)) × Quiet spans end name.now (D.disk dev.old) }
    ensures quiet { D.tells → (spans : List (ℕ × ℕ)) → Quiet spans end name.now (D.disk dev.old) → OnOk result (Quiet spans end name.now (D.disk dev.new)) }
    ensures durable { D.tells → OnOk result (IsDurable (D.disk dev.new) name.now) }
    ensures laid { D.tells → OnOk result (IsLaid end bytes.now (contents ((D.disk dev.new).files name.now))) }
    ensures sealed { D.tells → OnOk result (sealed ((D.disk dev.new).files name.now) ≡ sealed ((D.disk dev.old).files name.now)) }
    ensures small { OnOk result (end + 9 + length bytes.now < 2 ^ 62) }
    ensures crash { D.tells → Effect (IsName name.now) (λ image. sealed (image name.now) ≡ sealed ((D.disk dev.old).files name.now)) (D.disk dev.old) (D.disk dev.new) }
    ensures cause { HasCause D.disk_faults D.tell_faults dev.old dev.new (IsErr result) }
{
    let mut room = [0u8; ROOM];
    put_all(&mut room, bytes);
    append(
        dev,
        name,
        end,
        end.saturating_add(1),
        &room[..laid_len(end, bytes.len())],
    )?;
    settle(dev, name, end)
}

// Writes a blob of any length there, in three writes.
fn lay_long<D: Device>(dev: &mut D, name: &str, end: u64, bytes: &[u8]) -> Result<(), Failed>
    requires { D.tells → (spans : List (ℕ × ℕ)) × Quiet spans end name.now (D.disk dev.old) }
    ensures quiet { D.tells → (spans : List (ℕ × ℕ)) → Quiet spans end name.now (D.disk dev.old) → OnOk result (Quiet spans end name.now (D.disk dev.new)) }
    ensures durable { D.tells → OnOk result (IsDurable (D.disk dev.new) name.now) }
    ensures laid { D.tells → OnOk result (IsLaid end bytes.now (contents ((D.disk dev.new).files name.now))) }
    ensures sealed { D.tells → OnOk result (sealed ((D.disk dev.new).files name.now) ≡ sealed ((D.disk dev.old).files name.now)) }
    ensures small { OnOk result (end + 9 + length bytes.now < 2 ^ 62) }
    ensures crash { D.tells → Effect (IsName name.now) (λ image. sealed (image name.now) ≡ sealed ((D.disk dev.old).files name.now)) (D.disk dev.old) (D.disk dev.new) }
    ensures cause { HasCause D.disk_faults D.tell_faults dev.old dev.new (IsErr result) }
{
    let len = bytes.len() as u64;
    lay_length(dev, name, end, len)?;
    append(dev, name, end, end + 9, bytes)?;
    append(dev, name, end, end + 9 + len, &[0])?;
    settle(dev, name, end)
}

// Writes a blob behind the closed gate byte at the end, with its length and a closed gate byte, durably.
fn lay<D: Device>(dev: &mut D, name: &str, end: u64, bytes: &[u8]) -> Result<(), Failed>
    requires { D.tells → (spans : List (ℕ × ℕ)) × Quiet spans end name.now (D.disk dev.old) }
    ensures quiet { D.tells → (spans : List (ℕ × ℕ)) → Quiet spans end name.now (D.disk dev.old) → OnOk result (Quiet spans end name.now (D.disk dev.new)) }
    ensures durable { D.tells → OnOk result (IsDurable (D.disk dev.new) name.now) }
    ensures laid { D.tells → OnOk result (IsLaid end bytes.now (contents ((D.disk dev.new).files name.now))) }
    ensures sealed { D.tells → OnOk result (sealed ((D.disk dev.new).files name.now) ≡ sealed ((D.disk dev.old).files name.now)) }
    ensures small { OnOk result (end + 9 + length bytes.now < 2 ^ 62) }
    ensures crash { D.tells → Effect (IsName name.now) (λ image. sealed (image name.now) ≡ sealed ((D.disk dev.old).files name.now)) (D.disk dev.old) (D.disk dev.new) }
    ensures cause { HasCause D.disk_faults D.tell_faults dev.old dev.new (IsErr result) }
{
    if bytes.len() <= SHORT {
        return lay_short(dev, name, end, bytes);
    }
    lay_long(dev, name, end, bytes)
}

// Seals a blob of these bytes behind the end, and says where the next gate byte is: a crash leaves the blobs that there were, or
// this one too.
pub fn append_blob<D: Device>(
    dev: &mut D,
    name: &str,
    end: u64,
    is_closed: bool,
    bytes: &[u8],
) -> Result<u64, Failed>
    requires { D.tells → (spans : List (ℕ × ℕ)) × IsAt spans end is_closed name.now (D.disk dev.old) }
    ensures quiet { D.tells → (spans : List (ℕ × ℕ)) → IsAt spans end is_closed name.now (D.disk dev.old) → OnOk result (Quiet (spans ++ (end + 9, length bytes.now) ∷ []) (end + 9 + length bytes.now) name.now (D.disk dev.new)) }
    ensures sealed { D.tells → OnOk result (sealed ((D.disk dev.new).files name.now) ≡ sealed ((D.disk dev.old).files name.now) ++ bytes.now ∷ []) }
    ensures durable { D.tells → OnOk result (IsDurable (D.disk dev.new) name.now) }
    ensures next { IfOk result (λ next. (next ≡ end + 9 + length bytes.now) × (next < 2 ^ 62)) }
    ensures crash { D.tells → Effect (IsName name.now) (λ image. (sealed (image name.now) ≡ sealed ((D.disk dev.old).files name.now)) ⊎ (sealed (image name.now) ≡ sealed ((D.disk dev.old).files name.now) ++ bytes.now ∷ [])) (D.disk dev.old) (D.disk dev.new) }
    ensures cause { HasCause D.disk_faults D.tell_faults dev.old dev.new (IsErr result) }
{
    close(dev, name, end, is_closed)?;
    lay(dev, name, end, bytes)?;
    write_durably(dev, name, end, &[1])?;
    Ok(end + 9 + bytes.len() as u64)
}

// Sees to it that the gate byte at the end is closed and that there is room for a length behind it, where so many bytes of a blob
// are added already.
fn make_room<D: Device>(
    dev: &mut D,
    name: &str,
    end: u64,
    is_closed: bool,
    len: u64,
) -> Result<(), Failed>
    requires at { D.tells → (spans : List (ℕ × ℕ)) × IsAt spans end is_closed name.now (D.disk dev.old) }
    requires room { D.tells → 0 < len → (is_closed ≡ true) × (end + 9 + len ≤ length (contents ((D.disk dev.old).files name.now))) }
    ensures quiet { D.tells → (spans : List (ℕ × ℕ)) → IsAt spans end is_closed name.now (D.disk dev.old) → OnOk result (Quiet spans end name.now (D.disk dev.new)) }
    ensures room { D.tells → OnOk result (end + 9 + len ≤ length (contents ((D.disk dev.new).files name.now))) }
    ensures begun { D.tells → OnOk result (read_at (contents ((D.disk dev.new).files name.now)) (end + 9) len ≡ read_at (contents ((D.disk dev.old).files name.now)) (end + 9) len) }
    ensures sealed { D.tells → OnOk result (sealed ((D.disk dev.new).files name.now) ≡ sealed ((D.disk dev.old).files name.now)) }
    ensures crash { D.tells → Effect (IsName name.now) (λ image. sealed (image name.now) ≡ sealed ((D.disk dev.old).files name.now)) (D.disk dev.old) (D.disk dev.new) }
    ensures cause { HasCause D.disk_faults D.tell_faults dev.old dev.new (IsErr result) }
{
    if len > 0 {
        return Ok(());
    }
    close(dev, name, end, is_closed)?;
    lay_length(dev, name, end, 0)
}

// Adds bytes to a blob, of which so many are added already.
pub fn add_blob<D: Device>(
    dev: &mut D,
    name: &str,
    end: u64,
    is_closed: bool,
    len: u64,
    bytes: &[u8],
) -> Result<(), Failed>
    requires at { D.tells → (spans : List (ℕ × ℕ)) × IsAt spans end is_closed name.now (D.disk dev.old) }
    requires room { D.tells → 0 < len → (is_closed ≡ true) × (end + 9 + len ≤ length (contents ((D.disk dev.old).files name.now))) }
    ensures quiet { D.tells → (spans : List (ℕ × ℕ)) → IsAt spans end is_closed name.now (D.disk dev.old) → OnOk result (Quiet spans end name.now (D.disk dev.new)) }
    ensures room { D.tells → OnOk result (end + 9 + (len + length bytes.now) ≤ length (contents ((D.disk dev.new).files name.now))) }
    ensures begun { D.tells → OnOk result (read_at (contents ((D.disk dev.new).files name.now)) (end + 9) (len + length bytes.now) ≡ read_at (contents ((D.disk dev.old).files name.now)) (end + 9) len ++ bytes.now) }
    ensures sealed { D.tells → OnOk result (sealed ((D.disk dev.new).files name.now) ≡ sealed ((D.disk dev.old).files name.now)) }
    ensures small { OnOk result (end + 9 + (len + length bytes.now) < 2 ^ 62) }
    ensures crash { D.tells → Effect (IsName name.now) (λ image. sealed (image name.now) ≡ sealed ((D.disk dev.old).files name.now)) (D.disk dev.old) (D.disk dev.new) }
    ensures cause { HasCause D.disk_faults D.tell_faults dev.old dev.new (IsErr result) }
{
    make_room(dev, name, end, is_closed, len)?;
    append(
        dev,
        name,
        end,
        end.saturating_add(9).saturating_add(len),
        bytes,
    )
}

// Seals a blob, of which so many bytes are added, and says where the next gate byte is: a crash leaves the blobs that there were,
// or this one too.
pub fn seal_blob<D: Device>(
    dev: &mut D,
    name: &str,
    end: u64,
    is_closed: bool,
    len: u64,
) -> Result<u64, Failed>
    requires at { D.tells → (spans : List (ℕ × ℕ)) × IsAt spans end is_closed name.now (D.disk dev.old) }
    requires room { D.tells → 0 < len → (is_closed ≡ true) × (end + 9 + len ≤ length (contents ((D.disk dev.old).files name.now))) }
    ensures quiet { D.tells → (spans : List (ℕ × ℕ)) → IsAt spans end is_closed name.now (D.disk dev.old) → OnOk result (Quiet (spans ++ (end + 9, len) ∷ []) (end + 9 + len) name.now (D.disk dev.new)) }
    ensures sealed { D.tells → OnOk result (sealed ((D.disk dev.new).files name.now) ≡ sealed ((D.disk dev.old).files name.now) ++ read_at (contents ((D.disk dev.old).files name.now)) (end + 9) len ∷ []) }
    ensures durable { D.tells → OnOk result (IsDurable (D.disk dev.new) name.now) }
    ensures next { IfOk result (λ next. (next ≡ end + 9 + len) × (next < 2 ^ 62)) }
    ensures crash { D.tells → Effect (IsName name.now) (λ image. (sealed (image name.now) ≡ sealed ((D.disk dev.old).files name.now)) ⊎ (sealed (image name.now) ≡ sealed ((D.disk dev.old).files name.now) ++ read_at (contents ((D.disk dev.old).files name.now)) (end + 9) len ∷ [])) (D.disk dev.old) (D.disk dev.new) }
    ensures cause { HasCause D.disk_faults D.tell_faults dev.old dev.new (IsErr result) }
{
    if len == 0 {
        return append_blob(dev, name, end, is_closed, &[]);
    }
    finish(dev, name, end, len)?;
    write_durably(dev, name, end, &[1])?;
    Ok(end + 9 + len)
}

// Cuts what stands behind the closed gate byte at the end.
fn trim<D: Device>(dev: &mut D, name: &str, end: u64) -> Result<(), Failed>
    requires { D.tells → (spans : List (ℕ × ℕ)) × Quiet spans end name.now (D.disk dev.old) }
    ensures quiet { D.tells → (spans : List (ℕ × ℕ)) → Quiet spans end name.now (D.disk dev.old) → OnOk result (Quiet spans end name.now (D.disk dev.new)) }
    ensures durable { D.tells → OnOk result (IsDurable (D.disk dev.new) name.now) }
    ensures sealed { D.tells → OnOk result (sealed ((D.disk dev.new).files name.now) ≡ sealed ((D.disk dev.old).files name.now)) }
    ensures crash { D.tells → Effect (IsName name.now) (λ image. sealed (image name.now) ≡ sealed ((D.disk dev.old).files name.now)) (D.disk dev.old) (D.disk dev.new) }
    ensures cause { HasCause D.disk_faults D.tell_faults dev.old dev.new (IsErr result) }
{
    cut_behind(dev, name, end)?;
    settle(dev, name, end)
}

fn cut_behind<D: Device>(dev: &mut D, name: &str, end: u64) -> Result<(), Failed>
    requires { D.tells → (spans : List (ℕ × ℕ)) × Quiet spans end name.now (D.disk dev.old) }
    ensures quiet { D.tells → (spans : List (ℕ × ℕ)) → Quiet spans end name.now (D.disk dev.old) → OnOk result (Quiet spans end name.now (D.disk dev.new)) }
    ensures sealed { D.tells → OnOk result (sealed ((D.disk dev.new).files name.now) ≡ sealed ((D.disk dev.old).files name.now)) }
    ensures crash { D.tells → Effect (IsName name.now) (λ image. sealed (image name.now) ≡ sealed ((D.disk dev.old).files name.now)) (D.disk dev.old) (D.disk dev.new) }
    ensures cause { HasCause D.disk_faults D.tell_faults dev.old dev.new (IsErr result) }
{
    if end == u64::MAX {
        return Ok(());
    }
    dev.cut(name, end + 1)
}

// Cuts what stands behind the gate byte at the end, where it is closed.
pub fn leave_closed<D: Device>(
    dev: &mut D,
    name: &str,
    end: u64,
    is_closed: bool,
) -> Result<(), Failed>
    requires { D.tells → (spans : List (ℕ × ℕ)) × IsAt spans end is_closed name.now (D.disk dev.old) }
    ensures at { D.tells → (spans : List (ℕ × ℕ)) → IsAt spans end is_closed name.now (D.disk dev.old) → OnOk result (IsAt spans end is_closed name.now (D.disk dev.new)) }
    ensures sealed { D.tells → OnOk result (sealed ((D.disk dev.new).files name.now) ≡ sealed ((D.disk dev.old).files name.now)) }
    ensures crash { D.tells → Effect (IsName name.now) (λ image. sealed (image name.now) ≡ sealed ((D.disk dev.old).files name.now)) (D.disk dev.old) (D.disk dev.new) }
    ensures cause { HasCause D.disk_faults D.tell_faults dev.old dev.new (IsErr result) }
{
    if !is_closed {
        return Ok(());
    }
    trim(dev, name, end)
}

const HEADER: [u8; 17] = *b"SQLBAKGATE000001\0";

// Makes a gate file with no blob.
pub fn start<D: Device>(dev: &mut D, name: &str) -> Result<(), Failed>
    ensures quiet { D.tells → OnOk result (Quiet [] 16 name.now (D.disk dev.new)) }
    ensures durable { D.tells → OnOk result (IsDurable (D.disk dev.new) name.now) }
    ensures crash { D.tells → Effect (IsName name.now) (λ image. (D.disk dev.old).may name.now (image name.now) ⊎ (sealed (image name.now) ≡ [])) (D.disk dev.old) (D.disk dev.new) }
    ensures cause { HasCause D.disk_faults D.tell_faults dev.old dev.new (IsErr result) }
{
    remove_durably(dev, name)?;
    write_durably(dev, name, 0, &HEADER)
}

// Closes the first gate byte of a file with blobs: a crash leaves them all, or none.
fn erase<D: Device>(dev: &mut D, name: &str, end: u64) -> Result<(), Failed>
    requires { D.tells → (spans : List (ℕ × ℕ)) × Quiet spans end name.now (D.disk dev.old) × (0 < length spans) }
    ensures quiet { D.tells → OnOk result (Quiet [] 16 name.now (D.disk dev.new)) }
    ensures sealed { D.tells → OnOk result (sealed ((D.disk dev.new).files name.now) ≡ []) }
    ensures crash { D.tells → Effect (IsName name.now) (λ image. (sealed (image name.now) ≡ sealed ((D.disk dev.old).files name.now)) ⊎ (sealed (image name.now) ≡ [])) (D.disk dev.old) (D.disk dev.new) }
    ensures cause { HasCause D.disk_faults D.tell_faults dev.old dev.new (IsErr result) }
{
    settle(dev, name, end)?;
    write_durably(dev, name, 16, &[0])
}

fn erase_blobs<D: Device>(dev: &mut D, name: &str, end: u64, has_blobs: bool) -> Result<(), Failed>
    requires { D.tells → (spans : List (ℕ × ℕ)) × Quiet spans end name.now (D.disk dev.old) × (has_blobs ≡ true → 0 < length spans) × (has_blobs ≡ false → spans ≡ []) }
    ensures quiet { D.tells → OnOk result (Quiet [] 16 name.now (D.disk dev.new)) }
    ensures sealed { D.tells → OnOk result (sealed ((D.disk dev.new).files name.now) ≡ []) }
    ensures crash { D.tells → Effect (IsName name.now) (λ image. (sealed (image name.now) ≡ sealed ((D.disk dev.old).files name.now)) ⊎ (sealed (image name.now) ≡ [])) (D.disk dev.old) (D.disk dev.new) }
    ensures cause { HasCause D.disk_faults D.tell_faults dev.old dev.new (IsErr result) }
{
    if !has_blobs {
        return Ok(());
    }
    erase(dev, name, end)
}

// Empties a gate file: a crash leaves all blobs, or none.
pub fn empty<D: Device>(
    dev: &mut D,
    name: &str,
    end: u64,
    is_closed: bool,
    has_blobs: bool,
) -> Result<(), Failed>
    requires at { D.tells → (spans : List (ℕ × ℕ)) × IsAt spans end is_closed name.now (D.disk dev.old) × (has_blobs ≡ true → 0 < length spans) × (has_blobs ≡ false → spans ≡ []) }
    ensures quiet { D.tells → OnOk result (Quiet [] 16 name.now (D.disk dev.new)) }
    ensures durable { D.tells → OnOk result (IsDurable (D.disk dev.new) name.now) }
    ensures sealed { D.tells → OnOk result (sealed ((D.disk dev.new).files name.now) ≡ []) }
    ensures crash { D.tells → Effect (IsName name.now) (λ image. (sealed (image name.now) ≡ sealed ((D.disk dev.old).files name.now)) ⊎ (sealed (image name.now) ≡ [])) (D.disk dev.old) (D.disk dev.new) }
    ensures cause { HasCause D.disk_faults D.tell_faults dev.old dev.new (IsErr result) }
{
    close(dev, name, end, is_closed)?;
    erase_blobs(dev, name, end, has_blobs)?;
    trim(dev, name, 16)
}
