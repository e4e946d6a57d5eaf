// The standard input and the system's clock.
use crate::words::shown;
use bk_device::{Clock, Source};
use bk_system::{StdinSource, SystemClock};
use std::alloc::AllocError;

// 2020-01-01 00:00:00.000 UTC, in milliseconds since 1970-01-01 00:00:00 UTC.
const PAST: u64 = 1_577_836_800_000;

// `stdin`: what one call reads from the standard input.
pub fn stdin<R: AllocGlobal + Input>(rt: &R) -> Result<String, AllocError> {
    let mut room = [0u8; 5];
    let count = StdinSource::new(rt).read(&mut room).unwrap_or(0);
    shown(rt.alloc(), &room[..count])
}

// `clock`: whether it is later than 2020.
pub fn clock<R: AllocGlobal + std::rt::Clock>(rt: &R) -> Result<String, AllocError> {
    let is_later = SystemClock::new(rt).now() > PAST;
    let said = if is_later {
        "later than 2020"
    } else {
        "earlier"
    };
    String::from_str(rt.alloc(), said)
}
