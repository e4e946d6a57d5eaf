// Copying the pages of a sealed batch to their data files.
ghost use Rattle.std.specs.Prelude.{◌≡◌, ◌≤◌, ◌<◌, ◌⊎◌, ◌+◌, ◌*◌, ◌^◌, ◌/◌, ℕ, List, length, IsErr, OnOk};
ghost use Rattle.bk_device.specs.Calls.{contents, read_at, ChangesNothing};
ghost use Rattle.bk_device.specs.Counts.{HasCause};
ghost use Rattle.bk_device.specs.Disk.{IsDurable};
ghost use Rattle.bk_device.specs.Effects.{Effect, MayLeaveOwn};
ghost use Rattle.bk_side.specs.Names.{IsData, IsOwn, AreApart};
ghost use Rattle.bk_side.specs.Pages.{entry_of, entries_of, batch_of, page_of, shown, Shows};
ghost use Rattle.bk_side.specs.Side.{AreDurable};
ghost use Rattle.bk_side.specs.Writing.{WritesPage, WritesEntry, PutsPage, PutsEntry};

use crate::entry::{ENTRY_BYTES, page_bytes, place_of};
use crate::name::name_of;
use bk_device::{Device, Failed};
use bk_ids::Text;

// Writes a page where it lies whole in a file.
fn write_page<D: Device>(dev: &mut D, name: &str, page: u32, bytes: &[u8]) -> Result<(), Failed>
    requires { length bytes.now ≡ 8192 }
    ensures done { D.tells → OnOk result (PutsPage name.now page bytes.now (D.disk dev.old) (D.disk dev.new)) }
    ensures crash { D.tells → ChangesNothing (D.disk dev.old) (D.disk dev.new) ⊎ WritesPage name.now page (D.disk dev.old) (D.disk dev.new) }
    ensures cause { HasCause D.disk_faults D.tell_faults dev.old dev.new (IsErr result) }
{
    let at = 8192 * u64::from(page);
    match dev.len(name)? {
        Some(len) if at + 8192 <= len => dev.write(name, at, bytes),
        _ => Ok(()),
    }
}

// Writes the page of an entry, where it lies whole in its file.
fn copy_entry<D: Device>(dev: &mut D, names: &[Text], entry: &[u8; 8198]) -> Result<(), Failed>
    ensures done { D.tells → OnOk result (PutsEntry names.now (entry_of entry.now) (D.disk dev.old) (D.disk dev.new)) }
    ensures crash { D.tells → ChangesNothing (D.disk dev.old) (D.disk dev.new) ⊎ WritesEntry names.now (entry_of entry.now) (D.disk dev.old) (D.disk dev.new) }
    ensures cause { HasCause D.disk_faults D.tell_faults dev.old dev.new (IsErr result) }
{
    let (file, page) = place_of(entry);
    let Some(name) = name_of(names, file) else {
        return Ok(());
    };
    write_page(dev, name, page, page_bytes(entry))
}

// Reads an entry of the side file. Changes nothing.
fn read_entry<D: Device>(
    dev: &mut D,
    side: &str,
    at: u64,
    entry: &mut [u8; 8198],
) -> Result<(), Failed>
    requires { D.tells → at + 8198 ≤ length (contents ((D.disk dev.old).files side.now)) }
    ensures entry { D.tells → OnOk result (entry.new ≡ read_at (contents ((D.disk dev.old).files side.now)) at 8198) }
    ensures effect { D.tells → ChangesNothing (D.disk dev.old) (D.disk dev.new) }
    ensures cause { HasCause D.disk_faults D.tell_faults dev.old dev.new (IsErr result) }
{
    dev.read(side, at, entry)?;
    Ok(())
}

// Writes the pages of the batch that lies in this part of the side file, where they lie whole in their files. They aren't durable yet.
pub fn copy_entries<D: Device>(
    dev: &mut D,
    side: &str,
    names: &[Text],
    at: u64,
    len: u64,
) -> Result<(), Failed>
    requires small { at + len < 2 ^ 64 }
    requires inside { D.tells → at + len ≤ length (contents ((D.disk dev.old).files side.now)) }
    requires batch { D.tells → batch_of ((D.disk dev.old).files side.now) ≡ entries_of (read_at (contents ((D.disk dev.old).files side.now)) at len) }
    requires apart { D.tells → AreApart side.now names.now }
    requires durable { D.tells → AreDurable (IsOwn side.now names.now) (D.disk dev.old) }
    ensures same { D.tells → OnOk result ((D.disk dev.new).files side.now ≡ (D.disk dev.old).files side.now) }
    ensures durable { D.tells → OnOk result (IsDurable (D.disk dev.new) side.now) }
    ensures pages { D.tells → OnOk result ((at : ℕ × ℕ) → page_of names.now (D.disk dev.new).files at ≡ shown side.now names.now (D.disk dev.old).files at) }
    ensures crash { D.tells → Effect (IsOwn side.now names.now) (Shows side.now names.now (shown side.now names.now (D.disk dev.old).files)) (D.disk dev.old) (D.disk dev.new) }
    ensures cause { HasCause D.disk_faults D.tell_faults dev.old dev.new (IsErr result) }
{
    let mut entry = [0u8; 8198];
    'entries: for i in 0..len / ENTRY_BYTES {
        read_entry(dev, side, at + ENTRY_BYTES * i, &mut entry)?;
        copy_entry(dev, names, &entry)?;
    }
    Ok(())
}

// Makes what the data files hold durable.
pub fn sync_files<D: Device>(dev: &mut D, names: &[Text]) -> Result<(), Failed>
    ensures same { D.tells → OnOk result ((name : List ℕ) → (D.disk dev.new).files name ≡ (D.disk dev.old).files name) }
    ensures durable { D.tells → OnOk result (AreDurable (IsData names.now) (D.disk dev.new)) }
    ensures effect { D.tells → OnOk result (ChangesNothing (D.disk dev.old) (D.disk dev.new)) }
    ensures crash { D.tells → Effect (IsData names.now) (MayLeaveOwn (IsData names.now) (D.disk dev.old)) (D.disk dev.old) (D.disk dev.new) }
    ensures cause { HasCause D.disk_faults D.tell_faults dev.old dev.new (IsErr result) }
{
    'files: for name in names {
        dev.sync(name.as_str())?;
    }
    Ok(())
}

// Makes what the side file and the data files hold durable.
pub fn sync_own<D: Device>(dev: &mut D, side: &str, names: &[Text]) -> Result<(), Failed>
    requires { D.tells → AreApart side.now names.now }
    ensures same { D.tells → OnOk result ((name : List ℕ) → (D.disk dev.new).files name ≡ (D.disk dev.old).files name) }
    ensures durable { D.tells → OnOk result (AreDurable (IsOwn side.now names.now) (D.disk dev.new)) }
    ensures effect { D.tells → OnOk result (ChangesNothing (D.disk dev.old) (D.disk dev.new)) }
    ensures crash { D.tells → Effect (IsOwn side.now names.now) (MayLeaveOwn (IsOwn side.now names.now) (D.disk dev.old)) (D.disk dev.old) (D.disk dev.new) }
    ensures cause { HasCause D.disk_faults D.tell_faults dev.old dev.new (IsErr result) }
{
    sync_files(dev, names)?;
    dev.sync(side)
}
