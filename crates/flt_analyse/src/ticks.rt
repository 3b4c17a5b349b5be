//! A count of the transfers of a point.

ghost use Rattle.std.specs.Prelude.{◌≡◌, ◌+◌, ◌<◌, Ok, Err, IfSome, IfNone};
ghost use Rattle.flt_abs.specs.Step as step;
ghost use Rattle.flt_analyse.specs.Ticks as spec;

use flt_abs::{Abs, Leads, transfer_into};
use flt_graph::Graph;
use flt_rules::Rule;
use std::marker::Model;
use std::sync::ledger::{Blank, Book, Ledger, Share};

/// How often the point POINT of the callback CALLBACK was transferred. It takes no bytes. As both numbers are the type's, each proof about
/// it holds of each point.
#[derive(Drop)]
pub struct Ticks<L: Ledger, const CALLBACK: usize, const POINT: usize> {
    book: Book<L>,
    share: Share<L>,
}

impl<L: Ledger, const CALLBACK: usize, const POINT: usize> Model for Ticks<L, CALLBACK, POINT> {
    ghost use Rattle.std.specs.Prelude.{ℕ, ◌<◌};

    ghost Value = { ℕ };

    ghost view = { λ t. t.book.total };

    ghost invariant = { λ t. 0 < t.share.parts };
}

impl<L: Ledger, const CALLBACK: usize, const POINT: usize> Ticks<L, CALLBACK, POINT> {
    /// No transfer yet.
    pub fn new(blank: Blank) -> Ticks<L, CALLBACK, POINT>
        requires name { blank.name ≡ L.name }
        requires parts { blank.parts ≡ L.parts }
        requires some { 0 < blank.parts }
        ensures { result ≡ 0 }
    {
        let (book, share) = blank.open();
        Ticks { book, share }
    }

    /// `flt_abs::transfer_into`, counted if the point is the one that is watched.
    pub fn transfer_into(
        &mut self,
        graph: &Graph,
        callback: usize,
        point: usize,
        state: &Abs,
        leads: &mut Leads,
    ) -> Option<Rule>
        ensures leads { IfNone result (step.transfer graph.now callback point state.now ≡ Ok leads.new) }
        ensures rule { IfSome result (λ rule. step.transfer graph.now callback point state.now ≡ Err rule) }
        ensures stays { IfSome result (λ _. leads.new ≡ leads.old) }
        ensures count { self.new ≡ self.old + spec.one_at CALLBACK POINT callback point }
    {
        if callback == CALLBACK && point == POINT {
            self.book.add(&mut self.share, 1);
        }
        transfer_into(graph, callback, point, state, leads)
    }
}
