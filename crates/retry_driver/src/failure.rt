use crate::looks::Look;
use gs_lines::Text;
use std::alloc::AllocError;

/// Why a script did not come to its end.
#[derive(Clone, Copy)]
pub(crate) enum Failure {
    /// The words ask for nothing that there is.
    BadWords,
    /// The script has a fault.
    BadScript,
    /// A read or a write failed.
    Streams,
    /// Out of memory where nothing is tried.
    OutOfMemory,
    /// After an event, counted from 1, a look shows something else than it has to.
    Differs { event: usize, look: Look },
}

impl From<AllocError> for Failure {
    fn from(_failed: AllocError) -> Failure {
        Failure::OutOfMemory
    }
}

impl Failure {
    /// Returns the exit status.
    pub(crate) fn status(self) -> u8 {
        match self {
            Failure::BadScript => 2,
            Failure::BadWords => 3,
            Failure::Streams => 4,
            Failure::OutOfMemory => 5,
            Failure::Differs { .. } => 7,
        }
    }

    /// Adds a line that names event and look, if something differs.
    pub(crate) fn write(self, lines: &mut Text) -> Result<(), AllocError> {
        let Failure::Differs { event, look } = self else {
            return Ok(());
        };
        lines.push_number("event ", event as u64)?;
        lines.push_str(" differs in ")?;
        lines.push_str(look.name())?;
        lines.end_line()
    }
}
