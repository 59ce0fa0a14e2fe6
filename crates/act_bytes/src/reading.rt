ghost use Rattle.std.specs.Prelude.{◌≡◌, List, IfOk, IfSome, IfNone};
ghost use Rattle.command_words.specs.declared.act.Act.{Act};
ghost use Rattle.act_bytes.specs.Spelling.{Spells};
ghost use Rattle.act_bytes.specs.Reading.{Gives, act_in};

use crate::fault::ReadFault;
use crate::fund_bodies::body_of;
use crate::numbers::{u8_of, u16_of, u64_of};
use command_words::Act;
use condition_sets::{AccountId, NoMemory};
use std::alloc::Global;

/// The act that all of the bytes spell.
#[tactic(auto, unfolding(crate::specs::Reading::act_in))]
fn act_of(alloc: Global, bytes: &[u8]) -> Result<Act, ReadFault>
    ensures { Gives (λ act. act) result (act_in bytes.now) }
{
    let (moment, rest) = u64_of(bytes)?;
    let (account, rest) = u16_of(rest)?;
    let (kind, rest) = u8_of(rest)?;
    let account = AccountId(account);
    match body_of(alloc, kind, rest) {
        Ok((command, rest)) => {
            if rest.is_empty() && command.may_be_act() {
                Ok(Act {
                    moment,
                    account,
                    command,
                })
            } else {
                Err(ReadFault::NoAct)
            }
        }
        Err(fault) => Err(fault),
    }
}

/// The act that bytes spell; `None` exactly where they spell none. An `Err` where memory is wanting.
pub fn read_act(alloc: Global, bytes: &[u8]) -> Result<Option<Act>, NoMemory>
    ensures some { IfOk result (λ read. IfSome read (λ act. Spells bytes.now act)) }
    ensures none { IfOk result (λ read. IfNone read ((act : Act) → Spells bytes.now act → ⊥)) }
{
    match act_of(alloc, bytes) {
        Ok(act) => Ok(Some(act)),
        Err(ReadFault::NoAct) => Ok(None),
        Err(ReadFault::Memory) => Err(NoMemory),
    }
}
