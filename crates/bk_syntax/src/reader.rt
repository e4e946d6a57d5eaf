//! Reads a script item by item.

ghost use Rattle.std.specs.Prelude.{◌≡◌, ◌+◌, ◌<◌, ◌≤◌, ◌∷◌, ℕ, List, drop, length, false, IfOk, IfSome, OnOk};
ghost use Rattle.bk_token.specs.Places.{IsPlace, AreTokensAt};
ghost use Rattle.bk_token.specs.declared.token.Token.{Token as TokenOf};
ghost use Rattle.bk_items.specs.declared.item.ScriptEntry.{ScriptEntry as EntryOf};
ghost use Rattle.bk_syntax.specs.Items.{AreItems, from_place};
ghost use Rattle.bk_syntax.specs.Limits as limits_spec;
ghost use Rattle.bk_syntax.specs.Reader as spec;
ghost use Rattle.bk_syntax.specs.Reader.{IsReader, HasItems, GivesItem, Fills, IsInFront, ReadsOn, Peeked, Passes, Begun, Recovers};

use crate::front::{Front, front_of};
use crate::limits::ends;
use crate::statement::is_colon;
use bk_items::{ScriptEntry, ScriptItem};
use bk_token::{Place, Token, next_token};
use std::alloc::{AllocError, Global};

/// How many tokens are read ahead at first.
const AHEAD: usize = 64;

// Reads tokens from the place on until there are so many, or the script ends.
fn read_on(
    src: &[u8],
    place: &mut Place,
    tokens: &mut Vec<Token>,
    most: usize,
) -> Result<(), AllocError>
    requires { IsPlace src.now place.old }
    ensures read { OnOk result (ReadsOn src.now place.old tokens.old.items place.new tokens.new.items) }
    ensures over { OnOk result (length tokens.new.items < most → length src.now ≤ place.new.at) }
{
    while tokens.len() < most {
        let Some(token) = next_token(src, place) else {
            return Ok(());
        };
        tokens.push(token)?;
    }
    Ok(())
}

/// A reader of a script, which is passed at each call and is always the same: the tokens that were read ahead, and the
/// place behind them.
#[derive(Debug)]
pub struct Reader {
    tokens: Vec<Token>,
    from: usize,
    place: Place,
}

impl Drop for Reader {
    fn drop(self) {
        let Reader {
            tokens: _,
            from: _,
            place: _,
        } = self;
    }
}

impl Reader {
    /// A reader that stands at the beginning of a script.
    pub fn new(alloc: Global) -> Reader
        ensures reader { (src : List ℕ) → IsReader src result }
        ensures items { (src : List ℕ) (es : List EntryOf) → AreItems src es → HasItems src result es }
    {
        Reader {
            tokens: Vec::new(alloc),
            from: 0,
            place: Place::start(),
        }
    }

    // The tokens that were read ahead.
    fn ahead(&self) -> &[Token]
        requires { self.now.from ≤ length self.now.tokens.items }
        ensures { result.now ≡ spec.ahead self.now }
    {
        &self.tokens[self.from..]
    }

    // Goes behind so many of the tokens that were read ahead.
    fn skip(&mut self, count: usize)
        requires { self.old.from + count ≤ length self.old.tokens.items }
        ensures within { self.new.from ≤ length self.new.tokens.items }
        ensures ahead { spec.ahead self.new ≡ drop count (spec.ahead self.old) }
        ensures place { self.new.place ≡ self.old.place }
    {
        self.from += count;
    }

    // Reads ahead until so many tokens are, or the script ends.
    fn fill(&mut self, alloc: Global, src: &[u8], most: usize) -> Result<(), AllocError>
        requires { IsReader src.now self.old }
        ensures fills { OnOk result (Fills src.now self.old self.new) }
        ensures over { OnOk result (length (spec.ahead self.new) < most → length src.now ≤ self.new.place.at) }
    {
        let mut tokens = Vec::from_slice(alloc, self.ahead())?;
        let mut place = self.place;
        read_on(src, &mut place, &mut tokens, most)?;
        self.tokens = tokens;
        self.from = 0;
        self.place = place;
        Ok(())
    }

    // The next token, which is then read ahead; none at the end of the script.
    fn peek(&mut self, alloc: Global, src: &[u8]) -> Result<Option<Token>, AllocError>
        requires { IsReader src.now self.old }
        ensures fills { OnOk result (Fills src.now self.old self.new) }
        ensures first { IfOk result (Peeked src.now self.old self.new) }
    {
        if let [first, ..] = self.ahead() {
            return Ok(Some(*first));
        }
        self.fill(alloc, src, AHEAD)?;
        match self.ahead() {
            [first, ..] => Ok(Some(*first)),
            [] => Ok(None),
        }
    }

    // Passes over ends of statements, and gives the token behind them; none at the end of the script.
    fn pass_ends(&mut self, alloc: Global, src: &[u8]) -> Result<Option<Token>, AllocError>
        requires { IsReader src.now self.old }
        ensures passes { OnOk result (Passes src.now self.old self.new) }
        ensures first { IfOk result (Begun src.now self.old self.new) }
    {
        while let Some(first) = self.peek(alloc, src)? {
            if ends(&first) {
                self.skip(1);
            } else {
                return Ok(Some(first));
            }
        }
        Ok(None)
    }

    // Goes to where reading goes on behind a fault.
    fn recover(&mut self, alloc: Global, src: &[u8]) -> Result<(), AllocError>
        requires { IsReader src.now self.old }
        ensures { OnOk result (Recovers src.now self.old self.new) }
    {
        while let Some(token) = self.peek(alloc, src)? {
            if ends(&token) {
                self.skip(1);
                return Ok(());
            }
            if is_colon(&token) {
                return Ok(());
            }
            self.skip(1);
        }
        Ok(())
    }

    // What stands in front, whose first token is read ahead and is no end of a statement.
    fn front(&mut self, alloc: Global, src: &[u8], first: &Token) -> Result<Front, AllocError>
        requires reader { IsReader src.now self.old }
        requires first { (others : List TokenOf) × (spec.ahead self.old ≡ first.now ∷ others) }
        requires no_end { limits_spec.ends first.now.kind ≡ false }
        ensures fills { OnOk result (Fills src.now self.old self.new) }
        ensures front { IfOk result (IsInFront src.now first.now.line (spec.ahead self.new) (AreTokensAt src.now self.new.place) ⊥) }
    {
        while self.place.at < src.len() {
            match front_of(alloc, src, first, self.ahead(), false)? {
                Front::Wants => {
                    let most = self.ahead().len().saturating_mul(2).max(AHEAD);
                    self.fill(alloc, src, most)?;
                }
                front => return Ok(front),
            }
        }
        front_of(alloc, src, first, self.ahead(), true)
    }

    // Goes to where so many of the tokens that were read ahead are left.
    fn leave(&mut self, left: usize)
        requires within { self.old.from ≤ length self.old.tokens.items }
        requires some { left ≤ length (spec.ahead self.old) }
        ensures within { self.new.from ≤ length self.new.tokens.items }
        ensures ahead { spec.ahead self.new ≡ from_place left (spec.ahead self.old) }
        ensures place { self.new.place ≡ self.old.place }
    {
        self.skip(self.ahead().len() - left);
    }

    /// Reads the next item: a statement or a console line with the line of its first token; Syntax, with the line of the
    /// token where no statement can go on; or TooLong, where a length in a statement is above its limit. There is none at
    /// the end of the script. It fails only where memory runs out; then the reader can't be used further.
    pub fn next(&mut self, alloc: Global, src: &[u8]) -> Result<Option<ScriptEntry>, AllocError>
        requires { IsReader src.now self.old }
        ensures reader { OnOk result (IsReader src.now self.new) }
        ensures item { IfOk result (λ found. (es : List EntryOf) → HasItems src.now self.old es → GivesItem src.now found es self.new) }
        ensures goes_on { IfOk result (λ found. IfSome found (λ _. spec.work src.now self.new < spec.work src.now self.old)) }
    {
        let Some(first) = self.pass_ends(alloc, src)? else {
            return Ok(None);
        };
        let line = first.line;
        match self.front(alloc, src, &first)? {
            Front::Wants => Ok(None),
            Front::Read { item, left } => {
                self.leave(left);
                Ok(Some(ScriptEntry { item, line }))
            }
            Front::Stuck { left, there } => {
                self.leave(left);
                self.recover(alloc, src)?;
                let item = ScriptItem::Syntax { line: there };
                Ok(Some(ScriptEntry { item, line }))
            }
        }
    }
}
