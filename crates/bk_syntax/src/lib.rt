//! Reads the items of a script.
#![tactic(auto)]

ghost use Rattle.std.specs.Prelude.{◌≡◌, ℕ, List};
ghost use Rattle.bk_token.specs.declared.token.Token.{Token};
ghost use Rattle.bk_items.specs.declared.item.ScriptEntry.{ScriptEntry};
ghost use Rattle.bk_syntax.specs.Items.{AreEntries, AreItems};

mod entries;
mod front;
mod limits;
mod reader;
mod statement;

use bk_token::one_token_list;
pub use entries::items;
pub use reader::Reader;

/// Bytes have exactly one list of items, and each token list has one.
pub fn one_item_list()
    ensures one { (src : List ℕ) (entries others : List ScriptEntry) → AreItems src entries → AreItems src others → entries ≡ others }
    ensures some { (src : List ℕ) → (entries : List ScriptEntry) × AreItems src entries }
    ensures of_tokens { (src : List ℕ) (tokens : List Token) → (entries : List ScriptEntry) × AreEntries src tokens entries }
{
    one_token_list();
}
