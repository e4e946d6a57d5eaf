// What stands behind a crash at one write after another.

use crate::moments::Moments;
use crate::recorder::{Deed, Recorder};
use crate::script::{replies_in, told_ends, wanted_ends};
use crate::states::States;
use crate::tried::Tried;
use bk_device::MemDevice;
use std::alloc::{AllocError, Global};

// Before how many writes a run is to have gone well.
const MOST: u64 = 100_000;

/// Before which writes of a run there is a crash: each `every`-th, from the first on. At what each `again`-th of these leaves a look is put twice, and it is loaded with a crash before each write of that.
/// At each `cut`-th write the run itself is cut short.
#[derive(Clone, Copy)]
pub struct Stops {
    pub every: u64,
    pub again: u64,
    pub cut: u64,
}

// The crashes of a run.
struct Crashes {
    alloc: Global,
    moments: Moments,
    states: States,
    // What a look shows of what a crash leaves that loses what wasn't synced.
    lost: String,
    writes: u64,
    looks: u64,
}

impl Drop for Crashes {
    fn drop(self) {
        let Crashes {
            alloc: _,
            moments: _,
            states: _,
            lost: _,
            writes: _,
            looks: _,
        } = self;
    }
}

// Whether a number is one of each so many.
fn is_each(number: u64, every: u64) -> bool {
    number.checked_rem(every) == Some(0)
}

// What a look shows, or what two show.
fn look(tried: &Tried<'_>, image: &MemDevice, is_twice: bool) -> Result<String, AllocError> {
    if is_twice {
        return tried.look_twice(image);
    }
    tried.look(image)
}

// Whether a look always shows this where the loading of an image meets a crash before one of its writes.
fn loads_well(tried: &Tried<'_>, image: &MemDevice, wanted: &str) -> Result<bool, AllocError> {
    let mut recorder = tried.recorder(image)?;
    let status = tried.console.run("", &mut recorder);
    let is_well = match recorder.deeds() {
        Some(deeds) => shows_well(tried, image, deeds, wanted),
        None => Err(AllocError),
    };
    drop(recorder);
    Ok(status? == 0 && is_well?)
}

// Whether a look always shows this before a write among these deeds.
fn shows_well(
    tried: &Tried<'_>,
    image: &MemDevice,
    deeds: &[Deed],
    wanted: &str,
) -> Result<bool, AllocError> {
    let mut moments = Moments::new(tried.alloc, image)?;
    let is_well = show_well(tried, &mut moments, deeds, wanted);
    drop(moments);
    is_well
}

fn show_well(
    tried: &Tried<'_>,
    moments: &mut Moments,
    deeds: &[Deed],
    wanted: &str,
) -> Result<bool, AllocError> {
    for deed in deeds {
        if deed.is_write() && !both_show(tried, moments, wanted)? {
            return Ok(false);
        }
        if moments.next(deed).is_err() {
            return Err(AllocError);
        }
    }
    both_show(tried, moments, wanted)
}

// Whether a look shows this behind a crash that keeps what wasn't synced, and behind one that loses it.
fn both_show(tried: &Tried<'_>, moments: &mut Moments, wanted: &str) -> Result<bool, AllocError> {
    let kept = tried.look(moments.kept())?;
    if kept.as_str() != wanted {
        return Ok(false);
    }
    if !moments.is_lost_new() {
        return Ok(true);
    }
    let lost = tried.look(moments.lost())?;
    Ok(lost.as_str() == wanted)
}

impl Crashes {
    fn new(tried: &Tried<'_>) -> Result<Self, AllocError> {
        let moments = Moments::new(tried.alloc, tried.start)?;
        let states = States::new(tried)?;
        Ok(Crashes {
            alloc: tried.alloc,
            moments,
            states,
            lost: String::new(tried.alloc),
            writes: 0,
            looks: 0,
        })
    }

    // Whether all is as it may be at each crash among these deeds. Answers the first that isn't.
    fn are_well(
        &mut self,
        tried: &Tried<'_>,
        stops: Stops,
        deeds: &[Deed],
        out: &mut String,
    ) -> Result<bool, AllocError> {
        for deed in deeds {
            if deed.is_write() && !self.is_well_before(tried, stops, out)? {
                return Ok(false);
            }
            if self.moments.next(deed).is_err() {
                return Err(AllocError);
            }
        }
        self.is_well(tried, false, out)
    }

    // The same before the next write, if there is to be a crash.
    fn is_well_before(
        &mut self,
        tried: &Tried<'_>,
        stops: Stops,
        out: &mut String,
    ) -> Result<bool, AllocError> {
        let write = self.writes;
        self.writes = write.saturating_add(1);
        if !is_each(write, stops.every) {
            return Ok(true);
        }
        let is_loaded = is_each(self.looks, stops.again);
        self.looks = self.looks.saturating_add(1);
        let is_well = self.is_well(tried, is_loaded, out)?;
        if !is_well {
            writeln!(out, "behind {write} writes")?;
        }
        Ok(is_well)
    }

    // The same for the two crashes there may be now.
    fn is_well(
        &mut self,
        tried: &Tried<'_>,
        is_loaded: bool,
        out: &mut String,
    ) -> Result<bool, AllocError> {
        let kept = look(tried, self.moments.kept(), is_loaded)?;
        if !self.may_show(tried, &kept, out)? {
            return Ok(false);
        }
        if is_loaded && !loads_well(tried, self.moments.kept(), &kept)? {
            out.push_str("loading shows another thing\n")?;
            return Ok(false);
        }
        if self.moments.is_lost_new() {
            self.lost = look(tried, self.moments.lost(), is_loaded)?;
        }
        let lost = String::from_str(self.alloc, self.lost.as_str())?;
        self.may_show(tried, &lost, out)
    }

    // Whether a look may show this now. Answers it where it may not.
    fn may_show(
        &mut self,
        tried: &Tried<'_>,
        text: &str,
        out: &mut String,
    ) -> Result<bool, AllocError> {
        let answered = replies_in(self.moments.told());
        if self.states.take(tried, answered, text)? {
            return Ok(true);
        }
        writeln!(out, "{text}behind {answered} answers")?;
        Ok(false)
    }
}

// Whether the whole run answers what the script says, and all is as it may be at each crash. Answers the first thing that isn't.
fn runs_well(
    tried: &Tried<'_>,
    stops: Stops,
    recorder: &mut Recorder,
    out: &mut String,
) -> Result<bool, AllocError> {
    if !answers_well(tried, recorder, out)? {
        return Ok(false);
    }
    let deeds = recorder.deeds().ok_or(AllocError)?;
    let mut crashes = Crashes::new(tried)?;
    let are_well = crashes.are_well(tried, stops, deeds, out);
    drop(crashes);
    are_well
}

// Cuts the run short at a write. Gives its status where all is as it may be.
fn cut_short(
    tried: &Tried<'_>,
    states: &mut States,
    write: u64,
    whole: &[u8],
    out: &mut String,
) -> Result<Option<u8>, AllocError> {
    let mut recorder = tried.recorder(tried.start)?;
    recorder.stop_at(write);
    let status = tried.console.run(tried.script, &mut recorder);
    let device = recorder.end();
    let is_well = left_well(tried, states, &device, whole);
    drop(device);
    let status = status?;
    if is_well? && (status == 5 || status == 0) {
        return Ok(Some(status));
    }
    writeln!(out, "cut short at {write}, status {status}")?;
    Ok(None)
}

// Whether a front of this was told, and a look shows what it may.
fn left_well(
    tried: &Tried<'_>,
    states: &mut States,
    device: &MemDevice,
    whole: &[u8],
) -> Result<bool, AllocError> {
    let told = device.told();
    let text = tried.look_twice(device)?;
    let is_state = states.take(tried, replies_in(told), &text)?;
    Ok(is_state && whole.starts_with(told))
}

// Cuts the run short at one write after another, until it goes well. Says whether all is as it may be; answers the first thing that isn't.
fn cuts_well(
    tried: &Tried<'_>,
    every: u64,
    whole: &[u8],
    out: &mut String,
) -> Result<bool, AllocError> {
    let mut states = States::new(tried)?;
    let are_well = cut_each(tried, &mut states, every, whole, out);
    drop(states);
    are_well
}

fn cut_each(
    tried: &Tried<'_>,
    states: &mut States,
    every: u64,
    whole: &[u8],
    out: &mut String,
) -> Result<bool, AllocError> {
    let mut write = 1u64;
    for _ in 0..MOST {
        match cut_short(tried, states, write, whole, out)? {
            None => return Ok(false),
            Some(0) => return Ok(true),
            Some(_) => write = write.saturating_add(every),
        }
    }
    out.push_str("no end\n")?;
    Ok(false)
}

// Whether a run over a device that has told nothing answers what the script says. Answers the replies' last lines where it doesn't.
fn answers_well(
    tried: &Tried<'_>,
    recorder: &mut Recorder,
    out: &mut String,
) -> Result<bool, AllocError> {
    let status = tried.console.run(tried.script, recorder)?;
    let told = told_ends(tried.alloc, recorder.device().told())?;
    let wanted = wanted_ends(tried.alloc, tried.script)?;
    if status == 0 && told.as_str() == wanted.as_str() {
        return Ok(true);
    }
    writeln!(out, "{told}status {status}")?;
    Ok(false)
}

/// Runs the script, and gives the device behind it. Answers the replies' last lines where they aren't as the script says.
pub fn run_whole(tried: &Tried<'_>, out: &mut String) -> Result<MemDevice, AllocError> {
    let mut recorder = tried.recorder(tried.start)?;
    let is_well = answers_well(tried, &mut recorder, out);
    let device = recorder.end();
    match is_well {
        Ok(_) => Ok(device),
        Err(error) => {
            drop(device);
            Err(error)
        }
    }
}

/// Runs the script, and looks at what crashes leave of it. Answers that each is a prefix, or the first mistake.
pub fn stop(tried: &Tried<'_>, stops: Stops, out: &mut String) -> Result<(), AllocError> {
    let mut recorder = tried.recorder(tried.start)?;
    let is_well = runs_well(tried, stops, &mut recorder, out);
    let device = recorder.end();
    let whole = Vec::from_slice(tried.alloc, device.told());
    drop(device);
    let whole = whole?;
    if is_well? && cuts_well(tried, stops.cut, &whole, out)? {
        out.push_str("each is a prefix\n")?;
    }
    Ok(())
}
