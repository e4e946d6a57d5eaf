//! The laws of the smallest spellings.

ghost use Rattle.std.specs.Prelude.{ℕ, List};
ghost use Rattle.bk_bytes.specs.Codec.{IsCodec, number, run, text};

/// What is read as a number, a run of bytes or a text is spelled so; what is spelled so is read,
/// whatever follows.
pub fn codec_law()
    ensures number { (n : ℕ) → IsCodec ℕ (number n) }
    ensures run { (n : ℕ) → IsCodec (List ℕ) (run n) }
    ensures text { (n : ℕ) → IsCodec (List ℕ) (text n) }
{}
