// A call that a device in memory did.
ghost use Rattle.std.specs.Prelude.{◌≡◌, ◌<◌, ◌++◌, ◌∷◌, [], IfOk, vec_len, vec_capacity};
ghost use Rattle.bk_device.specs.Memory.{step_of};
ghost use Rattle.bk_device.specs.Replay.Step.{Wrote, Synced, CutTo, Removed, Told};

use std::alloc::{AllocError, Global};

#[derive(Drop)]
pub enum Call {
    Write {
        name: String,
        at: u64,
        bytes: Vec<u8>,
    },
    Sync {
        name: String,
    },
    Cut {
        name: String,
        len: u64,
    },
    Remove {
        name: String,
    },
    Tell {
        bytes: Vec<u8>,
    },
}

impl Call {
    pub fn write(alloc: Global, name: &str, at: u64, bytes: &[u8]) -> Result<Call, AllocError>
        ensures { IfOk result (λ call. step_of call ≡ Wrote name.now at bytes.now) }
    {
        Ok(Call::Write {
            name: String::from_str(alloc, name)?,
            at,
            bytes: Vec::from_slice(alloc, bytes)?,
        })
    }

    pub fn sync(alloc: Global, name: &str) -> Result<Call, AllocError>
        ensures { IfOk result (λ call. step_of call ≡ Synced name.now) }
    {
        Ok(Call::Sync {
            name: String::from_str(alloc, name)?,
        })
    }

    pub fn cut(alloc: Global, name: &str, len: u64) -> Result<Call, AllocError>
        ensures { IfOk result (λ call. step_of call ≡ CutTo name.now len) }
    {
        Ok(Call::Cut {
            name: String::from_str(alloc, name)?,
            len,
        })
    }

    pub fn remove(alloc: Global, name: &str) -> Result<Call, AllocError>
        ensures { IfOk result (λ call. step_of call ≡ Removed name.now) }
    {
        Ok(Call::Remove {
            name: String::from_str(alloc, name)?,
        })
    }

    pub fn tell(alloc: Global, bytes: &[u8]) -> Result<Call, AllocError>
        ensures { IfOk result (λ call. step_of call ≡ Told bytes.now) }
    {
        Ok(Call::Tell {
            bytes: Vec::from_slice(alloc, bytes)?,
        })
    }
}

// Adds a call, for which room was reserved.
pub fn push_reserved(done: &mut Vec<Call>, call: Call)
    requires { vec_len done.old < vec_capacity done.old }
    ensures { done.new.items ≡ done.old.items ++ call ∷ [] }
{
    match done.push(call) {
        Ok(()) => {}
        Err(_) => unreachable!(),
    }
}
