//! Parts that the forms of statements are made of, read over tokens: keywords, signs, numbers, names and texts.
//!
//! Each part gives what it read and the tokens behind it, or says where it can't go on.
#![tactic(auto)]

ghost use Rattle.std.specs.Prelude.{ℕ, List};
ghost use Rattle.bk_parse.specs.Ahead.{LooksAhead, behind_it, left_over};
ghost use Rattle.bk_parse.specs.Parse as spec;

mod parse;
mod stop;

pub use parse::{
    behind, equal_filled, equal_number, equal_text, filled_text, fixed, keyword, name, next_is,
    next_sign, number, number_in, push, same_text, sign, skip, stuck, text,
};
pub use stop::Stop;

/// No part leaves more tokens than there were, and none looks further ahead than two tokens.
pub fn parts_look_ahead()
    ensures keyword { (src word : List ℕ) → LooksAhead left_over (spec.keyword src word) }
    ensures sign { (b : ℕ) → LooksAhead left_over (spec.sign b) }
    ensures number { LooksAhead behind_it spec.number }
    ensures name { (src : List ℕ) → LooksAhead behind_it (spec.name src) }
    ensures text { (src : List ℕ) → LooksAhead behind_it (spec.text src) }
{}
