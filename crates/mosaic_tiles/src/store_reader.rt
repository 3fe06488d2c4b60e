//! A store that another program may be writing, and how it answers.
ghost use Rattle.std.specs.Prelude.{◌≡◌, ◌∷◌, Some, IfSome, MatchResult};
ghost use Rattle.std.proofs.Props.{props};
ghost use Rattle.disk.specs.FileCalls.{aside, opens_to_read};
ghost use Rattle.disk.specs.FileSteps.{reached};
ghost use Rattle.lines.specs.Grammar.{AskEvent};
ghost use Rattle.serving.specs.Answers.{Turn};
ghost use Rattle.mosaic_tiles.specs.Reading.{AnswersOrNot, ComesTo, IsAnswered, IsConfirmed, IsUnopened, Responds, TellsAnswer, TellsTurn};

use disk::{Disk, Files, SnapshotFile, World};
use engine::{Engine, Event, Reply};
use lattice::Refusal;
use lines::{Request, Text, format_reply, only_question};
use serving::{KeptItem, Responder};
use std::alloc::Global;
use std::time::{Duration, Instant};
use store::{Store, open_session};

/// For so many seconds a question is asked again that can't be confirmed.
const MOST_SECONDS: u64 = 10;

/// So often an opening that was refused is tried again: the writer may have been at work on the roots.
const MOST_OPENINGS: u32 = 100;

/// Why a question wasn't answered.
#[derive(Clone, Copy)]
pub enum Unanswered {
    Refused(Refusal),
    /// The store changes faster than the question is answered.
    Changing,
}

impl From<Refusal> for Unanswered {
    ghost use Rattle.std.specs.Prelude.{◌≡◌};
    ghost use Rattle.mosaic_tiles.specs.declared.store_reader.Unanswered.TheVariants.{Refused};

    ghost from_gives = { λ refusal why. why ≡ Refused refusal };

    fn from(refusal: Refusal) -> Unanswered {
        Unanswered::Refused(refusal)
    }
}

/// A disk that is only read, while another program may write it.
pub trait OpenToRead: Disk + Drop {
    /// The file at the path, if it can be opened to be read.
    fn open_to_read(files: &mut Files, path: &str) -> Option<Self>
        ensures { reached files.new ≡ aside (opens_to_read path.now) ∷ reached files.old };
}

impl<W: World> OpenToRead for SnapshotFile<W> {
    fn open_to_read(files: &mut Files, path: &str) -> Option<SnapshotFile<W>> {
        SnapshotFile::open(files, path).ok()
    }
}

/// The store of a file that another program may be writing.
///
/// Each answer is of one image, which was the current one at some moment since the question came. It is given once the root of
/// that image was found unchanged after the last read. Where it wasn't, all that was read is dropped, and the file is opened anew.
#[derive(Drop)]
pub struct StoreReader<'a, D: Disk> {
    rt: HostRuntime,
    files: Files,
    path: &'a str,
    // The store, of which each answer so far was confirmed.
    store: Option<Store<D>>,
    ghost confirmed: { IfSome store (IsConfirmed D.Disk) } by { Prim.hlevel props },
}

impl<'a, D: OpenToRead> StoreReader<'a, D> {
    pub fn new(rt: &HostRuntime, path: &'a str) -> StoreReader<'a, D> {
        StoreReader {
            rt: *rt,
            files: Files::new(rt),
            path,
            store: None,
        }
    }

    /// Whether the file can be opened to be read.
    pub fn is_there(&mut self) -> bool {
        D::open_to_read(&mut self.files, self.path).is_some()
    }

    /// Opens the file anew.
    fn open(&mut self) -> Result<Store<D>, Refusal>
        ensures { MatchResult result (IsConfirmed D.Disk) (IsUnopened D.Disk) }
    {
        let mut why = Refusal::Device;
        for _ in 0..MOST_OPENINGS {
            let Some(disk) = D::open_to_read(&mut self.files, self.path) else {
                return Err(Refusal::Device);
            };
            match open_session(self.rt.alloc(), disk) {
                Ok(store) => return Ok(store),
                Err(refused) => why = refused.refusal,
            }
        }
        Err(why)
    }

    /// The store that is open, or the one that the file has now. It is taken out.
    fn take_store(&mut self) -> Result<Store<D>, Refusal>
        ensures { MatchResult result (IsConfirmed D.Disk) (IsUnopened D.Disk) }
    {
        match self.store.take() {
            Some(store) => Ok(store),
            None => self.open(),
        }
    }

    /// Asks the store once. There is an answer where its root was the current one before, and stands unchanged afterwards. Else
    /// the store is dropped, with all that it has cached.
    fn ask_once(&mut self, event: &Event) -> Result<Option<Reply>, Refusal>
        ensures { MatchResult result (λ found. IfSome found (IsAnswered D.Disk event.now)) (IsUnopened D.Disk) }
    {
        let mut store = self.take_store()?;
        let Ok(current) = store.is_current() else {
            return Err(Refusal::Device);
        };
        if !current {
            return Ok(None);
        }
        let reply = store.answer(event);
        let Ok(stands) = store.confirm() else {
            return Err(Refusal::Device);
        };
        if !stands {
            return Ok(None);
        }
        self.store = Some(store);
        Ok(Some(reply))
    }

    /// Answers a question by one image.
    pub fn ask(&mut self, event: &Event) -> Result<Reply, Unanswered>
        ensures { AnswersOrNot D.Disk event.now result }
    {
        let start = Instant::now(&self.rt).ok();
        for _ in 0..u64::MAX {
            if let Some(reply) = self.ask_once(event)? {
                return Ok(reply);
            }
            if is_over(&self.rt, start) {
                return Err(Unanswered::Changing);
            }
        }
        Err(Unanswered::Changing)
    }

    /// The text of the answer to a question; of an event that changes the store, that of a refusal.
    fn answer(&mut self, alloc: Global, event: Event) -> Text
        ensures { (turn : Turn) × ComesTo (Some (AskEvent event)) turn
            × TellsTurn D.Disk turn result }
    {
        match only_question(event) {
            Ok(question) => answer_text(alloc, self.ask(&question)),
            Err(refusal) => Text::refused(refusal),
        }
    }
}

/// Whether the time for a question is over, which came then.
fn is_over(rt: &HostRuntime, start: Option<Instant>) -> bool {
    match start {
        Some(start) => start
            .elapsed(rt)
            .map_or(true, |spent| spent >= Duration::from_secs(MOST_SECONDS)),
        None => true,
    }
}

/// The text of the answer to a question, or of why there is none.
pub fn answer_text(alloc: Global, answer: Result<Reply, Unanswered>) -> Text
    ensures { TellsAnswer answer result }
{
    match answer {
        Ok(reply) => format_reply(alloc, reply),
        Err(Unanswered::Refused(refusal)) => Text::refused(refusal),
        Err(Unanswered::Changing) => Text::changing(),
    }
}

impl<D: OpenToRead> Responder for StoreReader<'_, D> {
    ghost responded = { λ old i text new. Responds D.Disk i text };

    fn payload_len(&self) -> u32 {
        0
    }

    fn respond(&mut self, alloc: Global, item: KeptItem<'_>) -> Text {
        let KeptItem { request, .. } = item;
        match request {
            Some(Request::Ask(event)) => self.answer(alloc, event),
            Some(Request::Import { .. }) => Text::refused(Refusal::BadLine),
            Some(Request::BadName) => Text::refused(Refusal::BadName),
            Some(Request::Quit) => Text::done(),
            None => Text::refused(Refusal::BadLine),
        }
    }
}
