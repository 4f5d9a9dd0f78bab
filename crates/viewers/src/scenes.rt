//! The scenes that a writer and viewers of a namespace play.

use crate::beside::{looks_beside, opens_often, sees_beside};
use crate::many::{finds, resolves};
use crate::random::sees_published;
use crate::refused::catches_up;
use crate::turns::takes_turns;
use crate::writer::Writer;
use ob_published::Naming;
use ob_view::Viewer;
use std::sync::Wait;
use std::sync::ledger::Ledger;
use std::thread::Threads;

/// A scene.
#[derive(Clone, Copy)]
pub(crate) enum Scene {
    /// Two viewers take turns with the writer.
    Turns,
    /// A viewer is compared with the names of random publishes.
    Random,
    /// Two viewers look a name up on threads of their own, beside the writer.
    Beside,
    /// A publish that runs out of memory is made again.
    Refused,
    /// So many viewers make so many lookups each beside the writer.
    Look { viewers: u32, lookups: u32 },
    /// The writer makes so many opens under the lock.
    Open { lookups: u32 },
    /// A viewer looks so many times for names of so many rows of one directory.
    Find { rows: u32, lookups: u32 },
    /// A viewer resolves so many times whole paths of these names.
    Resolve { rows: u32, lookups: u32 },
}

impl Scene {
    /// How many viewers play in it.
    pub(crate) fn viewers(self) -> u32 {
        match self {
            Scene::Turns | Scene::Beside => 2,
            Scene::Look {
                viewers,
                lookups: _,
            } => viewers,
            _ => 1,
        }
    }
}

/// The outcome of a scene.
#[derive(Clone, Copy)]
pub(crate) enum SceneOutcome {
    /// Whether all that viewers saw was as it should be.
    Seen(bool),
    /// How many names of those that were looked for were found.
    Found(u32),
}

/// Plays a scene; its outcome, if memory sufficed.
pub(crate) fn play<R: Threads + Wait + Sync, W: Wait + Drop, L: Ledger, J: Naming + Send + Sync>(
    scene: Scene,
    writer: &mut Writer<'_, R, W, L, J>,
    viewers: &mut [Viewer<J>],
) -> Option<SceneOutcome> {
    let seen = match scene {
        Scene::Turns => takes_turns(writer, viewers)?,
        Scene::Random => sees_published(writer, viewers.first_mut()?)?,
        Scene::Beside => sees_beside(writer, viewers)?,
        Scene::Refused => catches_up(writer, viewers.first_mut()?)?,
        Scene::Look {
            viewers: _,
            lookups,
        } => looks_beside(writer, viewers, lookups)?,
        Scene::Open { lookups } => opens_often(writer, lookups)?,
        Scene::Find { rows, lookups } => {
            let found = finds(writer, viewers.first_mut()?, rows, lookups)?;
            return Some(SceneOutcome::Found(found));
        }
        Scene::Resolve { rows, lookups } => {
            let found = resolves(writer, viewers.first_mut()?, rows, lookups)?;
            return Some(SceneOutcome::Found(found));
        }
    };
    Some(SceneOutcome::Seen(seen))
}
