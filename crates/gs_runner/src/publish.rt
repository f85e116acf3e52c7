//! What the kernel shows on the board.

ghost use Rattle.gs_board.specs.Words.{MayFollow};
ghost use Rattle.gs_runner.specs.Enclaves.{IsShown, generation_number};

use crate::site::Site;
use gs_board::{Board, WriterSeat};
use gs_kernel::Kernel;
use gs_link::RtrbPoster;

/// Publishes the generation that was given last and the CPU of the active agent, and which CPUs the other class
/// holds. A word that did not change is not published. It stands apart from
/// what calls it, since few commands change what is shown.
#[cold]
#[inline(never)]
pub(crate) fn publish<L: Site>(
    board: &Board<L>,
    seat: &mut WriterSeat<L>,
    kernel: &Kernel<RtrbPoster>,
)
    requires { MayFollow seat.old.roles (generation_number kernel.now.history) }
    ensures { IsShown seat.new kernel.now.history }
{
    let cpu = match kernel.active() {
        Some((_, cpu)) => Some(cpu),
        None => None,
    };
    board.publish_role(seat, kernel.generation(), cpu);
    board.publish_taken(seat, kernel.taken());
}
