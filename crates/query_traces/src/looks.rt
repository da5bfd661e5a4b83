// What a query knows of leaves that it looked at, or didn't.
ghost use Rattle.std.specs.Prelude.{◌≡◌, ◌++◌, map, IfOk, OnOk};
ghost use Rattle.query_traces.specs.Rounds as spec;

use crate::answers::{Cuts, Flags};
use mon_value::{ListOf, OutOfMemory};
use std::alloc::Global;

/// The length of a leaf's history at which a query looked at it, whether it was read, and how much it sent.
#[derive(Clone, Copy)]
pub struct Look {
    pub cut: u64,
    pub read: bool,
    pub sent: u64,
}

/// Looks at leaves in the order of the configuration.
pub type Looks = ListOf<Look>;

impl Look {
    /// A leaf that is not read.
    pub fn unread(cut: u64) -> Look
        ensures look { result ≡ spec.unread_look cut }
    {
        Look {
            cut,
            read: false,
            sent: 0,
        }
    }

    /// A leaf that was read, and sent so much.
    pub fn read(cut: u64, sent: u64) -> Look
        ensures look { result ≡ spec.read_at cut sent }
    {
        Look {
            cut,
            read: true,
            sent,
        }
    }
}

/// Leaves that are not read, at these lengths of their histories.
pub(crate) fn unread_looks(alloc: Global, cuts: &[u64]) -> Result<Vec<Look>, OutOfMemory>
    ensures looks { IfOk result (λ looks. looks.items ≡ map spec.unread_look cuts.now) }
{
    let mut looks = Vec::with_capacity(alloc, cuts.len())?;
    for cut in cuts {
        looks.push(Look::unread(*cut))?;
    }
    Ok(looks)
}

/// Adds such leaves.
pub fn add_unread(looks: &mut Looks, cuts: &[u64]) -> Result<(), OutOfMemory>
    ensures added { OnOk result (looks.new ≡ looks.old ++ map spec.unread_look cuts.now) }
{
    for cut in cuts {
        looks.push(Look::unread(*cut))?;
    }
    Ok(())
}

/// The length of each leaf's history.
pub fn cuts_of(alloc: Global, looks: &[Look]) -> Result<Cuts, OutOfMemory>
    ensures cuts { IfOk result (λ cuts. cuts ≡ map (λ look. look.cut) looks.now) }
{
    let mut cuts = Cuts::new(alloc);
    for look in looks {
        cuts.push(look.cut)?;
    }
    Ok(cuts)
}

/// Whether each leaf was read.
pub fn read_of(alloc: Global, looks: &[Look]) -> Result<Flags, OutOfMemory>
    ensures flags { IfOk result (λ flags. flags ≡ map (λ look. look.read) looks.now) }
{
    let mut flags = Flags::new(alloc);
    for look in looks {
        flags.push(look.read)?;
    }
    Ok(flags)
}

/// How much each leaf sent.
pub fn sent_of(alloc: Global, looks: &[Look]) -> Result<Cuts, OutOfMemory>
    ensures sent { IfOk result (λ sent. sent ≡ map (λ look. look.sent) looks.now) }
{
    let mut sent = Cuts::new(alloc);
    for look in looks {
        sent.push(look.sent)?;
    }
    Ok(sent)
}
