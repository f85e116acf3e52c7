//! The modelled kernel of an enclave: it creates threads, posts messages about them, and lands the
//! agent's transactions. It keeps a journal of all that happens.
#![tactic(auto)]

mod agents;
mod apply;
mod attach;
mod beside;
mod command;
mod commit;
mod create;
mod effect;
mod execute;
mod executed;
mod generations;
mod group;
mod hand_off;
mod happen;
mod head;
mod kernel;
mod land;
mod landing;
mod other_class;
mod page;
mod post;
mod repeated;
mod settings;
mod shown;
mod tear;
mod tell;
mod thread_event;
mod threads;
mod tick;
mod written;

pub use command::Command;
pub use effect::Effect;
pub use executed::Executed;
pub use head::Head;
pub use kernel::Kernel;
pub use landing::Landing;
pub use settings::{
    LAST_TSEQ, LEAST_CPUS, LEAST_GENERATION, LEAST_HISTORY, MOST_FIRST_TSEQ, MOST_GENERATION,
    MOST_HISTORY, Settings,
};
pub use thread_event::ThreadEvent;
