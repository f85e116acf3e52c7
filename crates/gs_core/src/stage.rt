//! The stages by which one agent is replaced by another.

ghost use Rattle.std.specs.Prelude.{◌≡◌};
ghost use Rattle.gs_core.specs.Replacing.{first_stage, stage_after, stage_event};

use crate::event::Event;
use gs_kernel::Command;
use gs_replies::Reply;

/// What is done next as an agent is replaced.
#[derive(Clone, Copy)]
pub(crate) enum Stage {
    /// The agent that there is crashes.
    Crash,
    /// A new one begins to attach.
    Begin,
    /// It is told of the next threads that live.
    Page,
    /// It becomes active.
    Activate,
}

impl Stage {
    /// Returns the first stage, which depends on whether there is an agent.
    pub(crate) fn first(has_agent: bool) -> Stage
        ensures { result ≡ first_stage has_agent }
    {
        if has_agent {
            Stage::Crash
        } else {
            Stage::Begin
        }
    }

    /// Returns the event of this stage: a page has at most `max` threads, and the new agent becomes active on
    /// a CPU.
    pub(crate) fn event<P>(self, cpu: u16, max: u16) -> Event<P>
        ensures { result ≡ stage_event cpu max self }
    {
        match self {
            Stage::Crash => Event::Crash,
            Stage::Begin => Event::Kernel {
                command: Command::Begin,
            },
            Stage::Page => Event::Page { max },
            Stage::Activate => Event::Kernel {
                command: Command::Activate { cpu },
            },
        }
    }

    /// Returns the stage after this one, by the reply to its event: none if that was refused, or tore the
    /// enclave down.
    pub(crate) fn after(self, reply: &Reply) -> Option<Stage>
        ensures { result ≡ stage_after self reply.now }
    {
        match (self, reply) {
            (_, Reply::Refused(_) | Reply::Torn) => None,
            (Stage::Crash, _) => Some(Stage::Begin),
            (Stage::Begin, _) => Some(Stage::Page),
            (Stage::Page, Reply::Page { next: None, .. }) => Some(Stage::Activate),
            (Stage::Page, _) => Some(Stage::Page),
            (Stage::Activate, _) => None,
        }
    }
}
