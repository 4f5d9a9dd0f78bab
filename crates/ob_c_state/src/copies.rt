//! Copies of the parses that pending opens wait for.

ghost use Rattle.std.specs.Prelude.{◌≡◌, ◌<◌, ◌∷◌, [], ◌++◌, All, IfOk, OnOk};
ghost use Rattle.ob_runner.specs.Begun.{tickets_of};

use ob_core::Bytes;
use ob_host::HostSet;
use ob_runner::Waits;
use ob_types::Parsing;
use std::alloc::{AllocError, Global};
use std::sync::Arc;

/// The same parses, under the same tickets. The only error is out of memory.
pub(crate) fn copied_waits(
    alloc: Global,
    waits: &Waits<HostSet>,
) -> Result<Waits<HostSet>, AllocError>
    ensures { IfOk result (λ copy. copy ≡ waits.now) }
{
    waits.tickets_rise();
    let mut copy = Waits::new(alloc);
    for parse in waits.iter() {
        if keep_copied(alloc, &mut copy, parse).is_err() {
            copy.let_go();
            return Err(AllocError);
        }
    }
    Ok(copy)
}

// Keeps a copy of a parse, whose ticket must be above those of all that are kept. The only error is out of memory.
fn keep_copied(
    alloc: Global,
    waits: &mut Waits<HostSet>,
    parse: &Parsing<HostSet>,
) -> Result<(), AllocError>
    requires newest { All (λ k. k < parse.now.ticket) (tickets_of waits.old) }
    ensures { OnOk result (waits.new ≡ waits.old ++ parse.now ∷ []) }
{
    let copy = copied_parse(alloc, parse)?;
    match waits.keep(copy) {
        Ok(()) => Ok(()),
        Err(back) => {
            let _parts = back.give_up().into_parts();
            Err(AllocError)
        }
    }
}

// The same parse, with a face of its own. The only error is out of memory.
fn copied_parse(alloc: Global, parse: &Parsing<HostSet>) -> Result<Parsing<HostSet>, AllocError>
    ensures { IfOk result (λ copy. copy ≡ parse.now) }
{
    let face = Arc::new(alloc, parse.face().clone()?)?;
    let rest = Bytes::from_slice(alloc, parse.rest())?;
    Ok(Parsing::new(parse.ticket(), face, rest))
}
