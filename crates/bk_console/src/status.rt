ghost use Rattle.std.specs.Prelude.{◌≡◌};
ghost use Rattle.bk_console.specs.Run.{code_of, ended_status, words_status, read_status, answer_status, load_status, close_status, settle_status};
ghost use Rattle.bk_console.specs.declared.status.Status.TheVariants.{NoMemory};

use crate::answers::{AnswerError, Ended};
use crate::command_line::WordsError;
use crate::reading::ReadError;
use bk_device::Trouble;
use bk_settling::SettleError;
use bk_stores::LoadError;
use std::alloc::AllocError;

/// How a run ended. Its code is the program's exit status.
#[derive(Clone, Copy, Debug, PartialEq, Eq)]
pub enum Status {
    /// Each statement had its reply.
    Done,
    /// The last reply is a refusal, and `-b` asked to stop there.
    StoppedAtRefusal,
    /// The words are in no form; nothing was read or touched.
    Usage,
    /// Reading the script failed.
    SourceFault,
    /// Telling a reply failed.
    ConsoleFault,
    /// A file call of the device failed.
    DeviceFault,
    /// Memory was wanting.
    NoMemory,
    /// The files hold what no instance writes; the code is that of `NoMemory`.
    Broken,
    /// The directory is made as an instance, and its control file holds no control.
    NotAnInstance,
    /// The script has more than 16,777,216 bytes.
    ScriptTooLong,
}

impl Status {
    /// Its code, which the program answers.
    pub fn code(self) -> u8
        ensures { result ≡ code_of self }
    {
        match self {
            Status::Done => 0,
            Status::StoppedAtRefusal => 1,
            Status::Usage => 2,
            Status::SourceFault => 3,
            Status::ConsoleFault => 4,
            Status::DeviceFault => 5,
            Status::NoMemory | Status::Broken => 6,
            Status::NotAnInstance => 7,
            Status::ScriptTooLong => 8,
        }
    }
}

impl From<Ended> for Status {
    ghost from_gives = { λ ended status. status ≡ ended_status ended };

    fn from(ended: Ended) -> Self {
        match ended {
            Ended::AtTheEnd => Status::Done,
            Ended::AtARefusal => Status::StoppedAtRefusal,
        }
    }
}

impl From<WordsError> for Status {
    ghost from_gives = { λ error status. status ≡ words_status error };

    fn from(error: WordsError) -> Self {
        match error {
            WordsError::Usage => Status::Usage,
            WordsError::NoMemory => Status::NoMemory,
        }
    }
}

impl From<ReadError> for Status {
    ghost from_gives = { λ error status. status ≡ read_status error };

    fn from(error: ReadError) -> Self {
        match error {
            ReadError::TooLong => Status::ScriptTooLong,
            ReadError::Fault => Status::SourceFault,
            ReadError::NoMemory => Status::NoMemory,
        }
    }
}

impl From<AnswerError> for Status {
    ghost from_gives = { λ error status. status ≡ answer_status error };

    fn from(error: AnswerError) -> Self {
        match error {
            AnswerError::Console => Status::ConsoleFault,
            AnswerError::Device => Status::DeviceFault,
            AnswerError::NoMemory => Status::NoMemory,
            AnswerError::Broken => Status::Broken,
        }
    }
}

impl From<LoadError> for Status {
    ghost from_gives = { λ error status. status ≡ load_status error };

    fn from(error: LoadError) -> Self {
        match error {
            LoadError::NotAnInstance => Status::NotAnInstance,
            LoadError::Fault => Status::DeviceFault,
            LoadError::NoMemory => Status::NoMemory,
            LoadError::Broken => Status::Broken,
        }
    }
}

impl From<Trouble> for Status {
    ghost from_gives = { λ error status. status ≡ close_status error };

    fn from(error: Trouble) -> Self {
        match error {
            Trouble::Fault => Status::DeviceFault,
            Trouble::NoMemory => Status::NoMemory,
            Trouble::Broken => Status::Broken,
        }
    }
}

impl From<SettleError> for Status {
    ghost from_gives = { λ error status. status ≡ settle_status error };

    fn from(error: SettleError) -> Self {
        match error {
            SettleError::Fault => Status::DeviceFault,
            SettleError::NoMemory => Status::NoMemory,
        }
    }
}

impl From<AllocError> for Status {
    ghost from_gives = { λ _ status. status ≡ NoMemory };

    fn from(_: AllocError) -> Self {
        Status::NoMemory
    }
}
