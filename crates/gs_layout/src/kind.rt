ghost use Rattle.std.specs.Prelude.{◌≡◌};

/// The kinds of message. The layout numbers them from 1 to 8, in this order.
#[derive(Clone, Copy, PartialEq, Eq, Debug)]
pub enum Kind {
    Created,
    Blocked,
    Wakeup,
    Preempted,
    Yield,
    Dead,
    Affinity,
    TimerTick,
}

impl Kind {
    ghost use Rattle.gs_layout.specs.Kind.{kind_number, kind_takes_off};
    ghost use Rattle.gs_layout.specs.Reading.{kind_numbered};

    /// Returns the kind's number in the layout, from 1 to 8.
    pub fn number(self) -> u16
        ensures { result ≡ kind_number self }
    {
        self as u16 + 1
    }

    /// Returns the kind of this number, or `None` if it is not from 1 to 8.
    pub fn numbered(number: u16) -> Option<Kind>
        ensures { result ≡ kind_numbered number }
    {
        match number {
            1 => Some(Kind::Created),
            2 => Some(Kind::Blocked),
            3 => Some(Kind::Wakeup),
            4 => Some(Kind::Preempted),
            5 => Some(Kind::Yield),
            6 => Some(Kind::Dead),
            7 => Some(Kind::Affinity),
            8 => Some(Kind::TimerTick),
            _ => None,
        }
    }

    /// Returns whether a message of this kind takes its own thread off the CPU. A new mask does so if `off`
    /// says so. A tick has no thread.
    pub fn takes_off_cpu(self, off: bool) -> bool
        ensures { result ≡ kind_takes_off self off }
    {
        match self {
            Kind::Blocked | Kind::Preempted | Kind::Yield | Kind::Dead => true,
            Kind::Affinity => off,
            Kind::Created | Kind::Wakeup | Kind::TimerTick => false,
        }
    }
}
