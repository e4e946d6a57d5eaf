// Reading a control file.
ghost use Rattle.std.specs.Prelude.{◌≡◌, ◌≤◌, ◌+◌, ◌-◌, ◌==◌, min, List, ℕ, length, take, Some, None, slice_index, option_map, IfOk, OnErr, vec_len, vec_capacity, IfSome, OnOk, MatchOption, IsErr};
ghost use Rattle.bk_control.specs.Found.{IsHead, IsFound, sized};
ghost use Rattle.bk_control.specs.Slots.{slot_in, counting, fits, place};
ghost use Rattle.bk_device.specs.Calls.{contents, read_at, ChangesNothing};
ghost use Rattle.bk_device.specs.Counts.{HasCause};

use crate::side::Side;
use crate::slot::{MAGIC, read_number};
use bk_device::{Device, Failed};

// What an open slot says of its content.
#[derive(Clone, Copy)]
pub struct Entry {
    pub sequence: u64,
    pub len: usize,
}

impl Entry {
    // This entry counts, and beside it stands this head.
    fn counts(self, side: Side, other: Head) -> Found
        ensures { result ≡ record { side = side; sequence = self.sequence; len = self.len; is_other_open = other.gate_is_open } }
    {
        Found {
            side,
            sequence: self.sequence,
            len: self.len,
            is_other_open: other.gate_is_open,
        }
    }
}

// What stands at the head of a slot.
#[derive(Clone, Copy)]
pub struct Head {
    pub gate_is_open: bool,
    pub entry: Option<Entry>,
}

// The slot that counts.
#[derive(Clone, Copy)]
pub struct Found {
    pub side: Side,
    pub sequence: u64,
    pub len: usize,
    pub is_other_open: bool,
}

// Whether a content of this length fits a slot, of which the file has so many bytes.
fn fits_slot(len: u64, room: u64) -> bool
    ensures { result ≡ fits len room }
{
    len <= 65_536 && 32 + len <= room
}

// The entry of a slot that begins so, and of which the file has so many bytes.
fn entry_of(head: &[u8; 32], room: u64) -> Option<Entry>
    ensures entry { (slot : List ℕ) → length slot ≡ room → (32 ≤ room → take 32 slot ≡ head.now) → slot_in slot ≡ option_map (sized slot) result }
    ensures short { IfSome result (λ e. e.len ≤ 65536) }
    ensures inside { IfSome result (λ e. 32 + e.len ≤ room) }
{
    let len = read_number(&head[24..32]);
    if head[..8] == MAGIC[..] && head[8] == 1 && fits_slot(len, room) {
        let sequence = read_number(&head[16..24]);
        Some(Entry {
            sequence,
            len: len as usize,
        })
    } else {
        None
    }
}

// Of two slots the one that counts.
fn newest(first: Head, second: Head) -> Option<Found>
    requires first { IfSome first.entry (λ e. e.len ≤ 65536) }
    requires second { IfSome second.entry (λ e. e.len ≤ 65536) }
    ensures found { (file : List ℕ) → IsHead file 0 first → IsHead file 65600 second → MatchOption result (counting file ≡ None) (IsFound file) }
    ensures short { IfSome result (λ f. f.len ≤ 65536) }
{
    let Some(a) = first.entry else {
        let Some(b) = second.entry else {
            return None;
        };
        return Some(b.counts(Side::Second, first));
    };
    let Some(b) = second.entry else {
        return Some(a.counts(Side::First, second));
    };
    if a.sequence < b.sequence {
        Some(b.counts(Side::Second, first))
    } else {
        Some(a.counts(Side::First, second))
    }
}

fn read_head<D: Device>(dev: &mut D, name: &str, start: u64, len: u64) -> Result<Head, Failed>
    ensures head { D.tells → len ≡ length (contents ((D.disk dev.old).files name.now)) → IfOk result (IsHead (contents ((D.disk dev.old).files name.now)) start) }
    ensures short { IfOk result (λ head. IfSome head.entry (λ e. e.len ≤ 65536)) }
    ensures effect { D.tells → ChangesNothing (D.disk dev.old) (D.disk dev.new) }
    ensures cause { HasCause D.disk_faults D.tell_faults dev.old dev.new (IsErr result) }
{
    let mut head = [0u8; 32];
    dev.read(name, start, &mut head)?;
    let room = len.saturating_sub(start).min(65_600);
    Ok(Head {
        gate_is_open: head[8] == 1,
        entry: entry_of(&head, room),
    })
}

// The length of a file in bytes, 0 where there is none.
pub fn file_len<D: Device>(dev: &mut D, name: &str) -> Result<u64, Failed>
    ensures len { D.tells → IfOk result (λ len. len ≡ length (contents ((D.disk dev.old).files name.now))) }
    ensures effect { D.tells → ChangesNothing (D.disk dev.old) (D.disk dev.new) }
    ensures cause { HasCause D.disk_faults D.tell_faults dev.old dev.new (IsErr result) }
{
    let len = dev.len(name)?;
    Ok(len.unwrap_or(0))
}

// The slot that counts in a file of this length, if one does.
pub fn find<D: Device>(dev: &mut D, name: &str, len: u64) -> Result<Option<Found>, Failed>
    ensures found { D.tells → len ≡ length (contents ((D.disk dev.old).files name.now)) → IfOk result (λ found. MatchOption found (counting (contents ((D.disk dev.old).files name.now)) ≡ None) (IsFound (contents ((D.disk dev.old).files name.now)))) }
    ensures short { IfOk result (λ found. IfSome found (λ f. f.len ≤ 65536)) }
    ensures effect { D.tells → ChangesNothing (D.disk dev.old) (D.disk dev.new) }
    ensures cause { HasCause D.disk_faults D.tell_faults dev.old dev.new (IsErr result) }
{
    let first = read_head(dev, name, 0, len)?;
    let second = read_head(dev, name, 65_600, len)?;
    Ok(newest(first, second))
}

// Reads the content of the slot that counts into a buffer with room for it.
pub fn read_content<D: Device>(
    dev: &mut D,
    name: &str,
    found: Found,
    content: &mut Vec<u8>,
) -> Result<(), Failed>
    requires { found.len ≤ vec_capacity content.old }
    ensures content { D.tells → place found.side + 32 + found.len ≤ length (contents ((D.disk dev.old).files name.now)) → OnOk result (content.new.items ≡ read_at (contents ((D.disk dev.old).files name.now)) (place found.side + 32) found.len) }
    ensures len { vec_len content.new ≡ found.len }
    ensures room { vec_capacity content.old ≤ vec_capacity content.new }
    ensures effect { D.tells → ChangesNothing (D.disk dev.old) (D.disk dev.new) }
    ensures cause { HasCause D.disk_faults D.tell_faults dev.old dev.new (IsErr result) }
{
    content.clear();
    match content.resize(found.len, 0) {
        Ok(()) => {}
        Err(_) => unreachable!(),
    }
    dev.read(name, found.side.place() + 32, content.as_mut_slice())?;
    Ok(())
}
