ghost use Rattle.std.specs.Prelude.{◌≡◌, ◌≤◌, [], ◌∷◌, ◌++◌, length, true, All, IfOk, IfErr, OnOk, OnErr};
ghost use Rattle.command_words.specs.declared.act.TheConstants.{MAX_HISTORY};
ghost use Rattle.settle_core.specs.Legal.{IsAccepted, IsLegal};
ghost use Rattle.settle_core.specs.Replay.{IsStopped, IsNoHistory};
ghost use Rattle.command_words.specs.Command.{may_be_act};
ghost use Rattle.settle_core.specs.Exchange.{IsSame};
ghost use Rattle.settle_core.specs.declared.replay.ReplayFault.TheVariants.{Illegal, Memory};

use crate::exchange::Exchange;
use crate::limits::Limits;
use command_words::{Act, Refusal};
use condition_sets::NoMemory;
use std::alloc::Global;

/// Why acts are no history.
#[derive(Clone, Copy, Debug, PartialEq, Eq)]
pub enum ReplayFault {
    /// Act `lsn`, counted from 0, is refused over those before it, with the refusal of number `code`.
    Illegal { lsn: u64, code: u8 },
    /// Memory was wanting. It may be answered at any time.
    Memory,
}

impl Exchange {
    /// The exchange whose history these acts are, each carried out over those before it at its own moment.
    pub fn replay(alloc: Global, limits: Limits, acts: &[Act]) -> Result<Exchange, ReplayFault>
        requires { All (λ act. may_be_act act.command ≡ true) acts.now }

        ensures limits { IfOk result (λ exchange. exchange.limits ≡ limits) }
        ensures history { IfOk result (λ exchange. exchange.history ≡ acts.now) }
        ensures illegal { IfErr result (IsNoHistory limits acts.now) }
        ensures legal { IsLegal limits acts.now → IfErr result (λ fault. fault ≡ Memory) }
    {
        let mut exchange = match Exchange::new(alloc, limits) {
            Ok(exchange) => exchange,
            Err(NoMemory) => return Err(ReplayFault::Memory),
        };
        for act in acts {
            match exchange.redo(act) {
                Ok(()) => {}
                Err(fault) => return Err(fault),
            }
        }
        Ok(exchange)
    }

    /// Carries an act out again, at its own moment, as the next of the history. An `Err` leaves the exchange as it was.
    pub fn redo(&mut self, act: &Act) -> Result<(), ReplayFault>
        requires { may_be_act act.now.command ≡ true }

        ensures accepted { OnOk result (IsAccepted self.old.limits self.old.history act.now) }
        ensures history { OnOk result (self.new.history ≡ self.old.history ++ act.now ∷ []) }
        ensures stopped { IfErr result (IsStopped self.old.limits self.old.history act.now) }
        ensures same { OnErr result (IsSame self.old self.new) }
        ensures limits { self.new.limits ≡ self.old.limits }
    {
        match self.submit(act.account, &act.command, act.moment) {
            Ok(_) => Ok(()),
            Err(Refusal::Memory) => Err(ReplayFault::Memory),
            Err(refusal) => Err(self.illegal(refusal.code())),
        }
    }

    /// The next act is refused with this number.
    fn illegal(&self, code: u8) -> ReplayFault
        ensures { result ≡ Illegal (length self.now.history) code }
    {
        ReplayFault::Illegal {
            lsn: self.history().len() as u64,
            code,
        }
    }
}
