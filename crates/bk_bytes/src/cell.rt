//! The layout of a cell.

ghost use Rattle.std.specs.Prelude.{◌≡◌, ◌≤◌, MatchOption, Some, None, Option, length};
ghost use Rattle.bk_bytes.specs.Codec.{Gives, number_at};
ghost use Rattle.bk_bytes.specs.Cell.{IsCell, IsCellValue, cell_bytes, cell_form, used_form, free_form};
ghost use Rattle.bk_bytes.specs.CellView.{row_of, HasShortValue};

use crate::field::{put_u16, put_u32, put_u64};
use crate::split::{split_run, split_u8, split_u16, split_u32, split_u64, split_zeros};

/// What the 128 bytes of a cell say.
#[derive(Clone, Copy, Debug, PartialEq, Eq)]
pub enum Cell<'a> {
    /// Nothing.
    Free,
    /// A row of a table: its key, and its value of at most 112 bytes.
    Used {
        table: u32,
        key: u64,
        value: &'a [u8],
    },
}

impl<'a> Cell<'a> {
    /// The cell that these bytes spell, or `None` where they spell none.
    pub fn read(image: &'a [u8; 128]) -> Option<Self>
        ensures { MatchOption result (¬ IsCell image.now) (λ found. IsCellValue (row_of found) × (image.now ≡ cell_bytes (row_of found))) }
    {
        let (cell, _) = read_front(image)?;
        Some(cell)
    }

    /// The 128 bytes of the cell.
    pub fn image(&self) -> [u8; 128]
        requires { HasShortValue self.now }
        ensures bytes { result ≡ cell_bytes (row_of self.now) }
        ensures fits { IsCellValue (row_of self.now) }
    {
        match *self {
            Cell::Free => [0; 128],
            Cell::Used { table, key, value } => used_image(table, key, value),
        }
    }
}

fn used_image(table: u32, key: u64, value: &[u8]) -> [u8; 128]
    requires { length value.now ≤ 112 }
    ensures { result ≡ cell_bytes (Some (record { table = table; key = key; value = value.now })) }
{
    let mut image = [0; 128];
    image[0] = 1;
    put_u16(&mut image, 2, value.len() as u16);
    put_u32(&mut image, 4, table);
    put_u64(&mut image, 8, key);
    image[16..16 + value.len()].copy_from_slice(value);
    image
}

#[tactic(auto, unfolding(crate::specs::Cell::cell_form))]
fn read_front(image: &[u8]) -> Option<(Cell<'_>, &[u8])>
    ensures { Gives (λ x. (row_of x.0, x.1.now)) result (cell_form.reading image.now) }
{
    let (state, rest) = split_u8(image)?;
    match state {
        0 => read_free(rest),
        1 => read_used(rest),
        _ => None,
    }
}

#[tactic(auto, unfolding(crate::specs::Cell::free_form))]
fn read_free(bytes: &[u8]) -> Option<(Cell<'_>, &[u8])>
    ensures { Gives (λ x. (row_of x.0, x.1.now)) result (free_form.reading bytes.now) }
{
    let rest = split_zeros(bytes, 127)?;
    Some((Cell::Free, rest))
}

#[tactic(auto, unfolding(crate::specs::Cell::used_form))]
fn read_used(bytes: &[u8]) -> Option<(Cell<'_>, &[u8])>
    ensures { Gives (λ x. (row_of x.0, x.1.now)) result (used_form.reading bytes.now) }
{
    let rest = split_zeros(bytes, 1)?;
    let (size, rest) = split_u16(rest)?;
    let (table, rest) = split_u32(rest)?;
    let (key, rest) = split_u64(rest)?;
    let size = usize::from(size);
    let (value, rest) = split_run(rest, size)?;
    let rest = split_zeros(rest, 112usize.saturating_sub(size))?;
    if size > 112 {
        return None;
    }
    Some((Cell::Used { table, key, value }, rest))
}
