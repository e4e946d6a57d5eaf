// Reading a page of a data file.
ghost use Rattle.std.specs.Prelude.{◌≡◌, ◌≢◌, true, false, length, IfOk, IsErr, MatchBool};
ghost use Rattle.bk_page.specs.Page.{digest_field, page_digest};
ghost use Rattle.bk_device.specs.Calls.{contents, ChangesNothing};
ghost use Rattle.bk_device.specs.Counts.{HasCause};
ghost use Rattle.bk_side.specs.Pages.{page_in, page_of, IsSound};

use crate::name::name_of;
use bk_device::{Device, Failed};
use bk_frames::Page;
use bk_ids::Text;
use bk_page::check;

// Reads a page of the file of this name. Answers whether it lies whole there.
fn read_whole<D: Device>(
    dev: &mut D,
    name: &str,
    number: u32,
    page: &mut Page,
) -> Result<bool, Failed>
    ensures whole { D.tells → IfOk result (λ is_whole. is_whole ≡ true → length (page_in (contents ((D.disk dev.old).files name.now)) number) ≡ 8192) }
    ensures short { D.tells → IfOk result (λ is_whole. is_whole ≡ false → length (page_in (contents ((D.disk dev.old).files name.now)) number) ≢ 8192) }
    ensures page { D.tells → IfOk result (λ is_whole. is_whole ≡ true → page.new ≡ page_in (contents ((D.disk dev.old).files name.now)) number) }
    ensures effect { D.tells → ChangesNothing (D.disk dev.old) (D.disk dev.new) }
    ensures cause { HasCause D.disk_faults D.tell_faults dev.old dev.new (IsErr result) }
{
    let count = dev.read(name, 8192 * u64::from(number), page)?;
    Ok(count == 8192)
}

// Whether a page stores the digest of its bytes.
fn has_digest(page: &Page) -> bool
    ensures { MatchBool result (digest_field page.now ≡ page_digest page.now) (digest_field page.now ≢ page_digest page.now) }
{
    match check(page) {
        Ok(()) => true,
        Err(_) => false,
    }
}

// Reads a page of the file of this name. Answers whether it lies whole there and stores the digest of its bytes.
fn read_from<D: Device>(
    dev: &mut D,
    name: &str,
    number: u32,
    page: &mut Page,
) -> Result<bool, Failed>
    ensures sound { D.tells → IfOk result (λ is_sound. is_sound ≡ true → IsSound (page_in (contents ((D.disk dev.old).files name.now)) number)) }
    ensures broken { D.tells → IfOk result (λ is_sound. is_sound ≡ false → IsSound (page_in (contents ((D.disk dev.old).files name.now)) number) → ⊥) }
    ensures page { D.tells → IfOk result (λ is_sound. is_sound ≡ true → page.new ≡ page_in (contents ((D.disk dev.old).files name.now)) number) }
    ensures effect { D.tells → ChangesNothing (D.disk dev.old) (D.disk dev.new) }
    ensures cause { HasCause D.disk_faults D.tell_faults dev.old dev.new (IsErr result) }
{
    if !read_whole(dev, name, number, page)? {
        return Ok(false);
    }
    Ok(has_digest(page))
}

// Reads a page. Answers whether it is whole in its data file and stores the digest of its bytes.
pub fn read_page<D: Device>(
    dev: &mut D,
    names: &[Text],
    file: u16,
    number: u32,
    page: &mut Page,
) -> Result<bool, Failed>
    ensures sound { D.tells → IfOk result (λ is_sound. is_sound ≡ true → IsSound (page_of names.now (D.disk dev.old).files (file, number))) }
    ensures broken { D.tells → IfOk result (λ is_sound. is_sound ≡ false → IsSound (page_of names.now (D.disk dev.old).files (file, number)) → ⊥) }
    ensures page { D.tells → IfOk result (λ is_sound. is_sound ≡ true → page.new ≡ page_of names.now (D.disk dev.old).files (file, number)) }
    ensures effect { D.tells → ChangesNothing (D.disk dev.old) (D.disk dev.new) }
    ensures cause { HasCause D.disk_faults D.tell_faults dev.old dev.new (IsErr result) }
{
    match name_of(names, file) {
        Some(name) => read_from(dev, name, number, page),
        None => Ok(false),
    }
}

// Reads a page. Answers whether it is whole in its data file.
pub fn read_plain<D: Device>(
    dev: &mut D,
    names: &[Text],
    file: u16,
    number: u32,
    page: &mut Page,
) -> Result<bool, Failed>
    ensures short { D.tells → IfOk result (λ is_whole. is_whole ≡ false → IsSound (page_of names.now (D.disk dev.old).files (file, number)) → ⊥) }
    ensures page { D.tells → IfOk result (λ is_whole. is_whole ≡ true → page.new ≡ page_of names.now (D.disk dev.old).files (file, number)) }
    ensures effect { D.tells → ChangesNothing (D.disk dev.old) (D.disk dev.new) }
    ensures cause { HasCause D.disk_faults D.tell_faults dev.old dev.new (IsErr result) }
{
    match name_of(names, file) {
        Some(name) => read_whole(dev, name, number, page),
        None => Ok(false),
    }
}
