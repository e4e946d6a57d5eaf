//! Tokens from a place of the script on, one after the other.

ghost use Rattle.std.specs.Prelude.{◌≡◌, ◌<◌, ◌≤◌, List, length, MatchOption};
ghost use Rattle.bk_token.specs.declared.token.Token.{Token as TokenOf};
ghost use Rattle.bk_token.specs.Places.{IsPlace, AreTokensAt, IsNext, IsNextPiece};

use crate::line_number;
use crate::piece::first_piece;
use crate::runs::line_feeds;
use crate::token::Token;

/// A place between the pieces of a script.
#[derive(Clone, Copy, Debug, PartialEq, Eq)]
pub struct Place {
    /// How many bytes stand before it.
    pub at: usize,
    /// How many line feeds are among these.
    pub feeds: usize,
}

impl Place {
    /// The beginning of a script.
    pub fn start() -> Place
        ensures { (result.at ≡ 0) × (result.feeds ≡ 0) }
    {
        Place { at: 0, feeds: 0 }
    }
}

// The piece at the place as a token, if it is one, and the place behind it.
fn next_piece(src: &[u8], place: &Place) -> (Option<Token>, Place)
    requires place { IsPlace src.now place.now }
    requires some { place.now.at < length src.now }
    ensures place { IsPlace src.now result.1 }
    ensures goes_on { place.now.at < result.1.at }
    ensures next { (ts : List TokenOf) → AreTokensAt src.now place.now ts → IsNextPiece src.now result.0 ts result.1 }
{
    let piece = first_piece(&src[..place.at], &src[place.at..]);
    let end = place.at + piece.len;
    let feeds = place.feeds + line_feeds(&src[place.at..end]);
    let behind = Place { at: end, feeds };
    match piece.kind {
        Some(kind) => {
            let (start, line) = (place.at, line_number(place.feeds));
            let token = Token {
                kind,
                start,
                end,
                line,
            };
            (Some(token), behind)
        }
        None => (None, behind),
    }
}

/// Reads the next token from the place on, and goes behind it. Where none is left it gives none, and goes to the end.
pub fn next_token(src: &[u8], place: &mut Place) -> Option<Token>
    requires { IsPlace src.now place.old }
    ensures place { IsPlace src.now place.new }
    ensures next { (ts : List TokenOf) → AreTokensAt src.now place.old ts → IsNext src.now result ts place.new }
    ensures goes_on { MatchOption result (length src.now ≤ place.new.at) (λ _. place.old.at < place.new.at) }
{
    while place.at < src.len() {
        let (token, behind) = next_piece(src, place);
        *place = behind;
        if token.is_some() {
            return token;
        }
    }
    None
}
