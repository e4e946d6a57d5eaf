//! Fields at the end of a vector.
#![tactic(auto, unfolding(crate::specs::Field::bytes_of))]

ghost use Rattle.std.specs.Prelude.{◌≡◌, ◌^◌, ◌<◌, ◌++◌, length, OnOk, OnErr};
ghost use Rattle.bk_bytes.specs.Field.{bytes_of};

use std::alloc::AllocError;

/// Appends a byte. Where there is no memory, `out` stays as it was.
pub fn append_u8(out: &mut Vec<u8>, v: u8) -> Result<(), AllocError>
    ensures ok { OnOk result (out.new.items ≡ out.old.items ++ bytes_of 1 v) }
    ensures err { OnErr result (out.new.items ≡ out.old.items) }
{
    out.push(v)?;
    Ok(())
}

/// Appends the 2 bytes of a number. Where there is no memory, `out` stays as it was.
pub fn append_u16(out: &mut Vec<u8>, v: u16) -> Result<(), AllocError>
    ensures ok { OnOk result (out.new.items ≡ out.old.items ++ bytes_of 2 v) }
    ensures err { OnErr result (out.new.items ≡ out.old.items) }
{
    out.extend_from_slice(&v.to_le_bytes())
}

/// Appends the 4 bytes of a number. Where there is no memory, `out` stays as it was.
pub fn append_u32(out: &mut Vec<u8>, v: u32) -> Result<(), AllocError>
    ensures ok { OnOk result (out.new.items ≡ out.old.items ++ bytes_of 4 v) }
    ensures err { OnErr result (out.new.items ≡ out.old.items) }
{
    out.extend_from_slice(&v.to_le_bytes())
}

/// Appends the 8 bytes of a number. Where there is no memory, `out` stays as it was.
pub fn append_u64(out: &mut Vec<u8>, v: u64) -> Result<(), AllocError>
    ensures ok { OnOk result (out.new.items ≡ out.old.items ++ bytes_of 8 v) }
    ensures err { OnErr result (out.new.items ≡ out.old.items) }
{
    out.extend_from_slice(&v.to_le_bytes())
}

/// Appends the 16 bytes of a number. Where there is no memory, `out` stays as it was.
pub fn append_u128(out: &mut Vec<u8>, v: u128) -> Result<(), AllocError>
    ensures ok { OnOk result (out.new.items ≡ out.old.items ++ bytes_of 16 v) }
    ensures err { OnErr result (out.new.items ≡ out.old.items) }
{
    out.extend_from_slice(&v.to_le_bytes())
}

/// Appends a text: its length in 2 bytes, and its bytes. Where there is no memory, `out` stays as
/// it was.
pub fn append_text(out: &mut Vec<u8>, text: &[u8]) -> Result<(), AllocError>
    requires { length text.now < 2 ^ 16 }
    ensures ok { OnOk result (out.new.items ≡ out.old.items ++ (bytes_of 2 (length text.now) ++ text.now)) }
    ensures err { OnErr result (out.new.items ≡ out.old.items) }
{
    let len = out.len();
    append_u16(out, text.len() as u16)?;
    if let Err(error) = out.extend_from_slice(text) {
        out.truncate(len);
        return Err(error);
    }
    Ok(())
}
