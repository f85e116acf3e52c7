ghost use Rattle.std.specs.Prelude.{◌≡◌};

use crate::message::Change;
use crate::name::Name;
use gs_status::Mask;

/// A thread's class: class 0 is served before class 1.
#[derive(Clone, Copy, PartialEq, Eq, Debug)]
pub enum Class {
    Zero,
    One,
}

impl Class {
    ghost use Rattle.gs_layout.specs.Class.{class_number};
    ghost use Rattle.gs_layout.specs.Reading.{class_numbered};

    /// Returns the class's number, 0 or 1.
    pub fn number(self) -> u8
        ensures { result ≡ class_number self }
    {
        self as u8
    }

    /// Returns the class of this number: class 0 for 0, and class 1 for any other.
    pub fn numbered(number: u8) -> Class
        ensures { result ≡ class_numbered number }
    {
        match number {
            0 => Class::Zero,
            _ => Class::One,
        }
    }
}

/// What is known of a live thread.
#[derive(Clone, Copy, PartialEq, Eq, Debug)]
pub struct Facts {
    /// The CPUs that it may run on. It stands first, so that no room is lost to its alignment.
    pub mask: Mask,
    /// Whether it may run. A running thread is runnable.
    pub runnable: bool,
    pub class: Class,
    pub name: Name,
}

impl Facts {
    ghost use Rattle.gs_layout.specs.Record.{changed};
    ghost use Rattle.gs_layout.specs.declared.facts.Facts.{Facts};
    ghost use Rattle.gs_layout.specs.declared.record.Record.TheVariants.{Dead, Live};

    /// Changes a live thread's facts as a change says. A death leaves them.
    pub fn change(&mut self, change: &Change)
        ensures lives { (f : Facts) → changed self.old change.now ≡ Live f → self.new ≡ f }
        ensures dies { changed self.old change.now ≡ Dead → self.new ≡ self.old }
    {
        match change {
            Change::Created { facts } => *self = *facts,
            Change::Blocked { .. } => self.runnable = false,
            Change::Wakeup => self.runnable = true,
            Change::Affinity { mask, .. } => self.mask = *mask,
            Change::Preempted { .. } | Change::Yield { .. } | Change::Dead { .. } => {}
        }
    }
}
