// What a log's control record holds before the note.
ghost use Rattle.std.specs.Prelude.{◌≡◌, ◌≤◌, ◌<◌, ◌^◌, ◌+◌, ◌++◌, Some, length, vec_len, vec_capacity};
ghost use Rattle.std.specs.Bool.{MatchBool};
ghost use Rattle.bk_bytes.specs.Codec.{Gives};
ghost use Rattle.bk_bytes.specs.Field.{bytes_of};
ghost use Rattle.bk_segments.specs.Control.{control_bytes, read_control, IsSound};

use bk_bytes::split_u64;

/// What a log's control record holds before the note.
#[derive(Clone, Copy, Debug, PartialEq, Eq)]
pub struct Head {
    /// The number of the first record that counts.
    pub kept: u64,
    /// The first segment whose file may still be there.
    pub gone: u64,
    /// The first segment that counts.
    pub front: u64,
    /// The last one.
    pub back: u64,
    /// The number of the first record of the first segment that counts.
    pub first: u64,
}

// The head and the note behind it.
#[tactic(auto, unfolding(crate::specs::Control::read_control))]
pub fn read_head(bytes: &[u8]) -> Option<(Head, &[u8])>
    ensures { Gives (λ x. (x.0, x.1.now)) result (read_control bytes.now) }
{
    let (kept, rest) = split_u64(bytes)?;
    let (gone, rest) = split_u64(rest)?;
    let (front, rest) = split_u64(rest)?;
    let (back, rest) = split_u64(rest)?;
    let (first, rest) = split_u64(rest)?;
    let head = Head {
        kept,
        gone,
        front,
        back,
        first,
    };
    Some((head, rest))
}

// Whether the segments' numbers rise and the note is short.
pub fn is_sound(head: Head, note: &[u8]) -> bool
    ensures { MatchBool result (IsSound head note.now) (IsSound head note.now → ⊥) }
{
    head.gone <= head.front
        && head.front <= head.back
        && head.back < 1 << 62
        && head.back - head.gone <= 65_536
        && head.first <= head.kept
        && note.len() <= 32_768
}

/// Puts the bytes of a control record into a buffer with room for them.
#[tactic(auto, unfolding(crate::specs::Control::control_bytes))]
pub fn spell(out: &mut Vec<u8>, head: Head, note: &[u8])
    requires room { 40 + length note.now ≤ vec_capacity out.old }
    ensures items { out.new.items ≡ control_bytes head note.now }
    ensures reads { read_control out.new.items ≡ Some (head, note.now) }
    ensures len { vec_len out.new ≡ 40 + length note.now }
    ensures room { vec_capacity out.old ≤ vec_capacity out.new }
{
    out.clear();
    add_number(out, head.kept);
    add_number(out, head.gone);
    add_number(out, head.front);
    add_number(out, head.back);
    add_number(out, head.first);
    add(out, note);
}

// Adds the 8 bytes of a number, for which there is room.
#[tactic(auto, unfolding(bk_bytes::specs::Field::bytes_of))]
fn add_number(out: &mut Vec<u8>, n: u64)
    requires { vec_len out.old + 8 ≤ vec_capacity out.old }
    ensures items { out.new.items ≡ out.old.items ++ bytes_of 8 n }
    ensures small { n < 2 ^ 64 }
    ensures len { vec_len out.new ≡ vec_len out.old + 8 }
    ensures room { vec_capacity out.old ≤ vec_capacity out.new }
{
    add(out, &n.to_le_bytes());
}

/// Adds bytes for which there is room.
pub fn add(out: &mut Vec<u8>, bytes: &[u8])
    requires { vec_len out.old + length bytes.now ≤ vec_capacity out.old }
    ensures items { out.new.items ≡ out.old.items ++ bytes.now }
    ensures len { vec_len out.new ≡ vec_len out.old + length bytes.now }
    ensures room { vec_capacity out.old ≤ vec_capacity out.new }
{
    match out.extend_from_slice(bytes) {
        Ok(()) => {}
        Err(_) => unreachable!(),
    }
}
