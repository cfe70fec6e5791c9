// The line of a fault.
ghost use Rattle.std.specs.Prelude.{Some};
ghost use Rattle.board.specs.Lines.{fault_line};

use feed::Fault;
use std::fmt;

// A fault: its number, its reason, the layer and the byte that it lies in.
#[derive(Clone, Copy)]
pub struct FaultLine(pub Fault);

impl fmt::Display for FaultLine {
    ghost output = { λ l. Some (fault_line l.0) };

    #[tactic(auto, using(crate::proofs::Lining::fault_line_lem))]
    fn fmt<W: fmt::Write>(&self, f: &mut fmt::Formatter<W>) -> fmt::Result {
        let fault = self.0;
        write!(
            f,
            "fault {} ({}) in {} at byte {}",
            fault.number(),
            fault.reason,
            fault.layer(),
            fault.place
        )
    }
}
