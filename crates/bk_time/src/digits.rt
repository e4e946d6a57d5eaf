//! Digits and single bytes at the front of bytes.

ghost use Rattle.std.specs.Prelude.{◌<◌, IfSome};
ghost use Rattle.bk_time.specs.Reading.{Gives};
ghost use Rattle.bk_time.specs.Times as spec;

#[tactic(auto, unfolding(crate::specs::Times::byte))]
pub fn byte(b: u8, bytes: &[u8]) -> Option<&[u8]>
    ensures { Gives (λ x. x.now) result (spec.byte b bytes.now) }
{
    match bytes {
        [first, rest @ ..] if *first == b => Some(rest),
        _ => None,
    }
}

#[tactic(auto, unfolding(crate::specs::Times::one_digit))]
pub fn one_digit(bytes: &[u8]) -> Option<(u16, &[u8])>
    ensures value { Gives (λ x. (x.0, x.1.now)) result (spec.one_digit bytes.now) }
    ensures small { IfSome result (λ x. x.0 < 10) }
{
    match bytes {
        [b, rest @ ..] if b.is_ascii_digit() => Some((u16::from(*b - b'0'), rest)),
        _ => None,
    }
}

#[tactic(auto, unfolding(crate::specs::Times::two_digits))]
pub fn two_digits(bytes: &[u8]) -> Option<(u16, &[u8])>
    ensures value { Gives (λ x. (x.0, x.1.now)) result (spec.two_digits bytes.now) }
    ensures small { IfSome result (λ x. x.0 < 100) }
{
    let (tens, rest) = one_digit(bytes)?;
    let (ones, rest) = one_digit(rest)?;
    Some((tens * 10 + ones, rest))
}

#[tactic(auto, unfolding(crate::specs::Times::three_digits))]
pub fn three_digits(bytes: &[u8]) -> Option<(u16, &[u8])>
    ensures value { Gives (λ x. (x.0, x.1.now)) result (spec.three_digits bytes.now) }
    ensures small { IfSome result (λ x. x.0 < 1000) }
{
    let (tens, rest) = two_digits(bytes)?;
    let (ones, rest) = one_digit(rest)?;
    Some((tens * 10 + ones, rest))
}

#[tactic(auto, unfolding(crate::specs::Times::four_digits))]
pub fn four_digits(bytes: &[u8]) -> Option<(u16, &[u8])>
    ensures value { Gives (λ x. (x.0, x.1.now)) result (spec.four_digits bytes.now) }
    ensures small { IfSome result (λ x. x.0 < 10000) }
{
    let (tens, rest) = three_digits(bytes)?;
    let (ones, rest) = one_digit(rest)?;
    Some((tens * 10 + ones, rest))
}

pub fn one_or_two_digits(bytes: &[u8]) -> Option<(u16, &[u8])>
    ensures value { Gives (λ x. (x.0, x.1.now)) result (spec.one_or_two_digits bytes.now) }
    ensures small { IfSome result (λ x. x.0 < 100) }
{
    match two_digits(bytes) {
        Some(read) => Some(read),
        None => one_digit(bytes),
    }
}
