ghost use Rattle.std.specs.Prelude.{◌≡◌};
ghost use Rattle.gs_kernel.specs.Inside.{gone};

/// Which agents there are. None is both active and attaching.
#[derive(Clone, Copy)]
pub struct Agents {
    /// The active one: its generation and CPU.
    pub active: Option<(u32, u16)>,
    /// The generation of the one that attaches.
    pub attaching: Option<u32>,
    /// The generation that was given last.
    pub generation: u32,
}

impl Agents {
    /// Returns the agents once none is active and none attaches. The generation stays.
    pub(crate) fn gone(self) -> Agents
        ensures { result ≡ gone self }
    {
        Agents {
            active: None,
            attaching: None,
            generation: self.generation,
        }
    }
}
