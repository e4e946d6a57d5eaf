//! The forms of BACKUP and RESTORE, behind these words.
#![tactic(auto)]

ghost use Rattle.std.specs.Prelude.{ℕ, List};
ghost use Rattle.bk_parse.specs.Ahead.{LooksAhead, behind_it};
ghost use Rattle.bk_media_forms.specs.Media as media_spec;
ghost use Rattle.bk_media_forms.specs.Restore as restore_spec;

mod backup_options;
mod idle;
mod media;
mod pages;
mod restore_options;
mod restoring;
mod stops;

pub use media::backup;
pub use restoring::restore;

/// No form leaves more tokens than there were, and none looks further ahead than two tokens.
pub fn media_forms_look_ahead()
    ensures backup { (src : List ℕ) → LooksAhead behind_it (media_spec.backup src) }
    ensures restore { (src : List ℕ) → LooksAhead behind_it (restore_spec.restore src) }
{}
