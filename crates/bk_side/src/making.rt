// Making a data file.
ghost use Rattle.std.specs.Prelude.{◌<◌, ◌+◌, ◌*◌, IsErr, OnOk};
ghost use Rattle.bk_device.specs.Calls.{contents};
ghost use Rattle.bk_device.specs.Counts.{HasCause};
ghost use Rattle.bk_device.specs.Disk.{IsDurable};
ghost use Rattle.bk_device.specs.Effects.{Effect, IsName};
ghost use Rattle.bk_side.specs.Making.{IsFreshFile};

use bk_device::{Device, Failed, remove_durably};
use bk_page::format_page;

// Writes a fresh page at the end of the file of this name, which has all pages before it.
fn append_page<D: Device>(dev: &mut D, name: &str, file: u16, number: u32) -> Result<(), Failed>
    requires { D.tells → IsFreshFile file number (contents ((D.disk dev.old).files name.now)) }
    ensures fresh { D.tells → OnOk result (IsFreshFile file (number + 1) (contents ((D.disk dev.new).files name.now))) }
    ensures crash { D.tells → Effect (IsName name.now) (λ _. Unit {0}) (D.disk dev.old) (D.disk dev.new) }
    ensures cause { HasCause D.disk_faults D.tell_faults dev.old dev.new (IsErr result) }
{
    let mut page = [0u8; 8192];
    format_page(&mut page, file, number);
    dev.write(name, 8192 * u64::from(number), &page)
}

// Writes so many fresh pages in place of what was under this name, and syncs them. A crash may leave anything there.
pub fn make_file<D: Device>(dev: &mut D, name: &str, file: u16, pages: u32) -> Result<(), Failed>
    ensures fresh { D.tells → OnOk result (IsFreshFile file pages (contents ((D.disk dev.new).files name.now))) }
    ensures durable { D.tells → OnOk result (IsDurable (D.disk dev.new) name.now) }
    ensures crash { D.tells → Effect (IsName name.now) (λ _. Unit {0}) (D.disk dev.old) (D.disk dev.new) }
    ensures cause { HasCause D.disk_faults D.tell_faults dev.old dev.new (IsErr result) }
{
    remove_durably(dev, name)?;
    'pages: for number in 0..pages {
        append_page(dev, name, file, number)?;
    }
    dev.sync(name)
}
