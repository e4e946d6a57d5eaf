//! The law of the spelling of rows.

ghost use Rattle.bk_bytes.specs.Codec.{IsCodec};
ghost use Rattle.bk_machine.specs.declared.history_row.HistoryRow.{HistoryRow};
ghost use Rattle.bk_msdb.specs.Spelling.{row_form};

/// What is read as a row is spelled so, and what is spelled so is read, whatever follows.
pub fn row_law()
    ensures { IsCodec HistoryRow row_form }
{}
