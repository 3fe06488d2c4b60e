//! The events of a store and their answers, and the trait of a store in memory or on a disk.
//!
//! The layers above rest on this. `specs/State.antt` defines the state of a store; `specs/Outcomes.antt` says for each
//! call what it may answer and which state it leads to; `specs/Events.antt` says the same for events; `specs/Told.antt`
//! says what an answer shows on any disk; and `specs/Engines.antt` has all of this as one relation of a call, and
//! chains of calls. Each call of an [`Engine`] meets that relation. For an engine on a disk the relation also says what
//! a power cut may leave.
//!
//! ```
//! let reply = engine.answer(&Event::Fill(point));        // the call of the event, and what it answered
//! ```
#![tactic(auto)]

mod engine;
mod event;
mod info;
mod laws;

pub use engine::Engine;
pub use event::{Event, Reply};
pub use info::Info;
pub use laws::commands_come_to_their_effects;
