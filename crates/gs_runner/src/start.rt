//! How a station starts.

ghost use Rattle.std.specs.Prelude.{◌≡◌, ◌≤◌, ◌<◌, [], IfOk, IfErr, None, sum_by, vec_len};
ghost use Rattle.gs_board.specs.Views.{opening_words};
ghost use Rattle.gs_link.specs.declared.poster.RtrbPoster.{RtrbPoster};
ghost use Rattle.gs_link.specs.Between.{Gave, IsPairOf, Posted, room};
ghost use Rattle.gs_replies.specs.Config.{config_fault};
ghost use Rattle.gs_runner.specs.Holding.{first_held};
ghost use Rattle.gs_runner.specs.Starts.{WhyNotStarted};
ghost use Rattle.gs_runner.specs.declared.pass.TheConstants.{PASSES};
ghost use Rattle.gs_runner.specs.declared.start.StartFault.TheVariants.{OutOfMemory};

use crate::enclave::Enclave;
use crate::held::Held;
use crate::pass::{PASSES, Pass, deal};
use crate::site::Site;
use crate::station::Station;
use gs_agent::Role;
use gs_board::Opened;
use gs_kernel::{Kernel, Settings};
use gs_link::{RtrbPoster, RtrbTaker, make_ring};
use gs_policy::Counted;
use gs_replies::{Config, ConfigFault};
use gs_slots::Region;
use std::alloc::{AllocError, Global};
use std::sync::ledger::Blank;

/// The most parcels that a ring between threads may have.
pub const MOST_PARCELS: u32 = 1_048_576;

/// Why no station can be started: the first that applies.
#[derive(Clone, Copy, PartialEq, Eq, Debug)]
pub enum StartFault {
    /// The numbers have a fault.
    BadConfig(ConfigFault),
    /// There are to be 1 to 1,048,576 parcels.
    BadParcels,
    /// Memory ran out.
    OutOfMemory,
}

impl From<AllocError> for StartFault {
    ghost from_gives = { λ _ fault. fault ≡ OutOfMemory };

    fn from(_failed: AllocError) -> StartFault {
        StartFault::OutOfMemory
    }
}

/// A ring, a board and a ledger that no type names yet.
#[derive(Drop)]
pub struct Parts<P> {
    pub config: Config<P>,
    pub poster: RtrbPoster,
    pub taker: RtrbTaker,
    pub blank: Blank,
    pub opened: Opened,
    pub ghost fits: { config_fault config ≡ None },
    pub ghost pair: { IsPairOf poster taker },
    pub ghost fresh: { Posted poster [] × Gave taker [] },
    pub ghost shows: { opened.seat.me.0.words ≡ opening_words (config.first_generation, 0) 0 0 },
    pub ghost whole: { blank.parts ≡ PASSES },
}

impl<P: Copy> Parts<P> {
    /// Makes a ring of so many parcels, a board and a ledger.
    ///
    /// # Errors
    ///
    /// The first that applies: `BadConfig` if the numbers have a fault, `BadParcels` if there are not to be 1 to
    /// 1,048,576 parcels, `OutOfMemory` if out of memory.
    pub fn make(alloc: Global, config: Config<P>, parcels: u32) -> Result<Parts<P>, StartFault>
        ensures config { IfOk result (λ p. p.config ≡ config) }
        ensures parcels { IfOk result (λ p. room p.poster ≡ parcels) }
        ensures some_parcels { IfOk result (λ _. (0 < parcels) × (parcels ≤ MOST_PARCELS)) }
        ensures fault { IfErr result (WhyNotStarted (config_fault config) parcels) }
    {
        if let Some(fault) = config.fault() {
            return Err(StartFault::BadConfig(fault));
        }
        if parcels == 0 || parcels > MOST_PARCELS {
            return Err(StartFault::BadParcels);
        }
        let (poster, taker) = make_ring(alloc, parcels as usize)?;
        let opened = Opened::make(alloc, config.first_generation, Some(0))?;
        Ok(Parts {
            config,
            poster,
            taker,
            blank: Blank::new(PASSES),
            opened,
        })
    }
}

/// Makes the slots and the first agent's role, which is active on CPU 0.
fn hold<L: Site, P: Counted + Copy>(
    alloc: Global,
    config: Config<P>,
    taker: RtrbTaker,
) -> Result<Held<L, P>, AllocError>
    requires fits { config_fault config ≡ None }
    requires ring { (p : RtrbPoster) → L.is_ring p → IsPairOf p taker }
    ensures { IfOk result (λ h. h ≡ first_held config taker) }
{
    let Settings {
        cpus,
        first_generation,
        ..
    } = config.settings();
    let region = Region::new(alloc, cpus)?;
    let role = Role::new(alloc, config.policy, cpus, first_generation, 0)?;
    Ok(Held::new(role, config.policy, taker, region))
}

impl<L: Site> Station<L> {
    /// Starts an enclave in which only the first agent's role has happened: it is active on CPU 0. Returns it under
    /// its lock, what the agent holds, and 32 passes. `L` names ledger, ring and board.
    ///
    /// # Errors
    ///
    /// `OutOfMemory` if out of memory.
    ///
    /// # Examples
    ///
    /// A station of these parts, which `L` names, and what is done with it:
    ///
    /// ```
    /// match Station::<L>::start(alloc, parts) {
    ///     Ok((station, _held, mut passes)) => {
    ///         follow(rt, alloc, &station, passes.as_mut_slice(), course)
    ///     }
    ///     Err(_) => None,
    /// }
    /// ```
    pub fn start<P: Counted + Copy>(
        alloc: Global,
        parts: Parts<P>,
    ) -> Result<(Station<L>, Held<L, P>, Vec<Pass<L>>), StartFault>
        requires ledger { (parts.blank.name ≡ L.name) × (parts.blank.parts ≡ L.parts) }
        requires ring { L.is_ring parts.poster × ((p : RtrbPoster) → L.is_ring p → IsPairOf p parts.taker) }
        requires board { parts.opened.table.shared.table_id ≡ L.board }
        requires parcels { room parts.poster ≡ L.parcels }
        ensures passes { IfOk result (λ r. (vec_len r.2 ≡ PASSES) × (sum_by (λ p. p.share) r.2.items ≡ 0)) }
        ensures held { IfOk result (λ r. r.1 ≡ first_held parts.config parts.taker) }
        ensures short { IfErr result (λ f. f ≡ OutOfMemory) }
    {
        let Parts {
            config,
            poster,
            taker,
            blank,
            opened,
        } = parts;
        let held = hold(alloc, config, taker)?;
        let kernel = Kernel::new(alloc, config.settings(), poster)?;
        let (board, mut seat) = opened.named::<L>();
        let (book, all) = blank.open::<L>();
        let Ok(passes) = deal(alloc, all, &board, &mut seat) else {
            return Err(StartFault::OutOfMemory);
        };
        let enclave = Enclave::new(alloc, kernel, book, seat);
        Ok((Station::new(enclave, board), held, passes))
    }
}
