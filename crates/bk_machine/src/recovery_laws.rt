ghost use Rattle.std.specs.Prelude.{ℕ, List, ◌++◌};
ghost use Rattle.bk_ids.specs.declared.guid.Guid.{Guid};
ghost use Rattle.bk_machine.specs.statements.Restore.{Recovers};
ghost use Rattle.bk_world.specs.Pending.{pending};
ghost use Rattle.bk_world.specs.Records.{Counts, Logged, recovered};
ghost use Rattle.bk_world.specs.Says.{alone, settle_said};
ghost use Rattle.bk_world.specs.SoundLogs.{IsSound, NoLoadPends};

/// Behind a sound log a recovery may undo all that is pending, the last write first, and then name its branch.
pub fn recoveries_undo_what_is_pending()
    ensures recovers { (rs : List Logged) («end» : ℕ) (branch : Guid) → Counts 1 rs «end» → IsSound rs → NoLoadPends rs
        → Recovers rs (record { at = «end»; branch = branch; said = settle_said (pending rs) ++ alone (recovered branch) }) }
{}
