//! The forms of statements but those on media, behind their first keywords: databases, tables, rows and transactions.
#![tactic(auto)]

ghost use Rattle.std.specs.Prelude.{ℕ, List};
ghost use Rattle.bk_parse.specs.Ahead.{LooksAhead, behind_it};
ghost use Rattle.bk_forms.specs.Creating as creating_spec;
ghost use Rattle.bk_forms.specs.Rows as rows_spec;
ghost use Rattle.bk_forms.specs.Statements as statements_spec;

mod creating;
mod rows;
mod statements;

pub use creating::create_database;
pub use rows::{begins_row_statement, row_statement};
pub use statements::{alter, begin, create_table, drop_database, skip_tran, use_database};

/// No form leaves more tokens than there were, and none looks further ahead than two tokens.
pub fn forms_look_ahead()
    ensures create_database { (src : List ℕ) → LooksAhead behind_it (creating_spec.create_database src) }
    ensures create_table { (src : List ℕ) → LooksAhead behind_it (statements_spec.create_table src) }
    ensures row_statement { (src : List ℕ) → LooksAhead behind_it (rows_spec.row_statement src) }
    ensures begin { (src : List ℕ) → LooksAhead behind_it (statements_spec.begin src) }
    ensures use_database { (src : List ℕ) → LooksAhead behind_it (statements_spec.use_database src) }
    ensures alter { (src : List ℕ) → LooksAhead behind_it (statements_spec.alter src) }
    ensures drop_database { (src : List ℕ) → LooksAhead behind_it (statements_spec.drop_database src) }
{}
