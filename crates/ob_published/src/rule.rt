//! The rule of the copy that viewers read.

use crate::Shown;
use crate::book::Naming;
use crossbeam_utils::rule::{Outcome, Protocol};
use std::marker::PhantomData;

/// The rule of the copy that viewers read: it has the rows after some publications of the namespace, which it knows.
pub struct Of<J>(PhantomData<J>);

impl<J: Naming> Protocol<Shown, ()> for Of<J> {
    ghost use Rattle.ob_published.specs.Shown.{IsShown};

    ghost holds = { λ shown views. IsShown J.book J.opening J.leads shown };

    ghost first = { tt };
}

/// A look at the copy, and a change of it, keep the rule of the copy.
pub struct Sees<J>(PhantomData<J>);

impl<J: Naming> Outcome<Shown, ()> for Sees<J> {
    ghost use Rattle.ob_published.specs.Shown.{IsShown};

    ghost then = { λ before old new after. IsShown J.book J.opening J.leads new };
}
