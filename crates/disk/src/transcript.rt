//! The calls on a file with their answers: a ghost list, which only contracts read and which takes no bytes.
ghost use Rattle.std.specs.Prelude.{◌≡◌, List, [], ◌∷◌};
ghost use Rattle.std.specs.Borrow.{ftrue};
ghost use Rattle.disk.specs.FileCalls.{Answered};

use std::marker::Model;

// The calls so far, newest first. The two functions that make a transcript are proved by hand, since they set a ghost
// value.
#[derive(Drop)]
pub(crate) struct Transcript {
    pub(crate) ghost calls: { List Answered },
}

impl Model for Transcript {
    ghost also_owns = { λ _. ftrue };
}

// One call on a file, and whether it succeeded: with its sector and bytes, with the length that the file was to have,
// or with what was found.
#[derive(Clone, Copy)]
pub(crate) enum FileCall<'a> {
    Makes(&'a str),
    Opens(&'a str),
    OpensToRead(&'a str),
    Reads(&'a str, u32, &'a [u8]),
    ReadsNothing(&'a str, u32),
    Closes(&'a Transcript),
    Made,
    Opened,
    Locked(bool),
    Measured(bool, u64),
    FolderSynced(bool),
    NoteRead(Option<u32>),
    Read(u32, bool, &'a [u8; 4096]),
    Written(u32, bool, &'a [u8; 4096]),
    Synced(bool),
    Forgotten(bool),
    Resized(u32, bool),
    LengthSynced(bool),
    Noted(u32),
    Cleared(bool),
}

impl FileCall<'_> {
    ghost use Rattle.disk.specs.Doubts.{doubt_after};
    ghost use Rattle.disk.specs.FileSteps.{answered};

    // Whether the file is in doubt after this call: a sync has failed, and the system hasn't dropped its cache of the
    // file since.
    pub(crate) fn leaves_doubt(&self, was: bool) -> bool
        ensures { result ≡ doubt_after (answered self.now) was }
    {
        match *self {
            FileCall::Synced(ok) => !ok,
            FileCall::Forgotten(ok) => was && !ok,
            FileCall::LengthSynced(ok) => was || !ok,
            _ => was,
        }
    }
}

impl Transcript {
    ghost use Rattle.disk.specs.FileSteps.{answered};

    pub(crate) fn new() -> Transcript
        ensures { result.calls ≡ [] }
    {
        Transcript {}
    }

    pub(crate) fn and(&self, _call: &FileCall<'_>) -> Transcript
        ensures { result.calls ≡ answered _call.now ∷ self.now.calls }
    {
        Transcript {}
    }
}
