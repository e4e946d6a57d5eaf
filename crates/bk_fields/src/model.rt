//! Recovery models, as a byte.

ghost use Rattle.std.specs.Prelude.{◌≡◌, ◌++◌, OnOk, OnErr};
ghost use Rattle.bk_ids.specs.declared.record.RecoveryModel.{RecoveryModel};
ghost use Rattle.bk_bytes.specs.Codec.{Gives, IsCodec};
ghost use Rattle.bk_fields.specs.Models.{model_bytes, model_form};

use bk_bytes::{append_u8, split_u8};
use bk_ids::RecoveryModel;
use std::alloc::AllocError;

/// The recovery model in the first byte and the rest, or `None` where that byte is missing or above 2.
#[tactic(auto, unfolding(crate::specs::Models::model_form))]
pub fn split_model(bytes: &[u8]) -> Option<(RecoveryModel, &[u8])>
    ensures { Gives (λ x. (x.0, x.1.now)) result (model_form.reading bytes.now) }
{
    let (number, rest) = split_u8(bytes)?;
    match number {
        0 => Some((RecoveryModel::Simple, rest)),
        1 => Some((RecoveryModel::Full, rest)),
        2 => Some((RecoveryModel::BulkLogged, rest)),
        _ => None,
    }
}

/// Appends the byte of a recovery model. Where there is no memory, `out` stays as it was.
pub fn append_model(out: &mut Vec<u8>, model: RecoveryModel) -> Result<(), AllocError>
    ensures ok { OnOk result (out.new.items ≡ out.old.items ++ model_bytes model) }
    ensures err { OnErr result (out.new.items ≡ out.old.items) }
{
    let number = match model {
        RecoveryModel::Simple => 0,
        RecoveryModel::Full => 1,
        RecoveryModel::BulkLogged => 2,
    };
    append_u8(out, number)
}

/// What is read as a recovery model is spelled so, and what is spelled so is read, whatever follows.
pub fn model_law()
    ensures { IsCodec RecoveryModel model_form }
{}
