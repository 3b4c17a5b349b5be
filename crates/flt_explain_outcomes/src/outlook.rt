//! The reach of runs in a filter's text: a finding that no run reaches needs no search.

ghost use Rattle.std.specs.Prelude.{◌≡◌, IfOk, IfSome, OnOk, IsTrue};
ghost use Rattle.flt_graph.specs.declared.graph.Graph.{Graph};
ghost use Rattle.std.specs.List.{All};
ghost use Rattle.flt_explain_outcomes.specs.Reach as spec;
ghost use Rattle.flt_explain_outcomes.specs.Unset.{AreUnset};

use crate::possible::Possible;
use crate::reach::{Survey, at};
use crate::unset::Unset;
use flt_explain::{Finding, Subject};
use flt_graph::{ContextVariable, Graph};
use flt_rules::Rule;
use sqlite_items::Items;
use std::alloc::{AllocError, Global};
use std::marker::Model;

/// The variables of contexts.
const VARIABLES: [ContextVariable; 9] = [
    ContextVariable::C0,
    ContextVariable::C1,
    ContextVariable::C2,
    ContextVariable::C3,
    ContextVariable::C4,
    ContextVariable::C5,
    ContextVariable::C6,
    ContextVariable::C7,
    ContextVariable::Arg,
];

/// The possible states of a variable at each point, if nothing sets contexts on some anchors.
#[derive(Drop)]
pub(crate) struct StateSurvey {
    unset: Unset,
    variable: ContextVariable,
    rows: Items<Items<Possible>>,
}

/// A filter's points, and what runs can reach of them.
#[derive(Drop)]
pub struct Outlook<'g> {
    graph: &'g Graph,
    surveyed: Items<StateSurvey>,
}

impl<'g> Model for Outlook<'g> {
    ghost use Rattle.std.specs.List.{All};
    ghost use Rattle.flt_graph.specs.declared.graph.Graph.{Graph};
    ghost use Rattle.flt_explain_outcomes.specs.Reach.{IsSurveyed};

    ghost Value = { Graph };

    ghost view = { λ o. o.graph.now };

    ghost invariant = { λ o. All (IsSurveyed o.graph.now) o.surveyed };
}

/// Whether all possible states of a variable are those that a rule demands.
fn are_fine(rule: Rule, set: Possible) -> bool
    ensures { result ≡ spec.are_fine rule set }
{
    match rule {
        Rule::R01 | Rule::R04 | Rule::R13 => !set.null && !set.stale,
        Rule::R02 | Rule::R03 | Rule::R05 => !set.held,
        _ => true,
    }
}

/// Whether a finding of this rule and subject holds in no possible state.
fn is_fine_for(rule: Rule, subject: Subject, set: Possible) -> bool
    ensures { result ≡ spec.is_fine_for rule subject set }
{
    match subject {
        Subject::Context(_) => are_fine(rule, set),
        _ => !set.is_some(),
    }
}

/// The variable that is followed for a finding.
fn followed(subject: Subject) -> ContextVariable
    ensures { result ≡ spec.followed subject }
{
    match subject {
        Subject::Context(variable) => variable,
        _ => ContextVariable::Arg,
    }
}

impl StateSurvey {
    /// The possible states of a variable if nothing sets contexts on some anchors; none if something leads out of those that are found.
    fn of(
        alloc: Global,
        graph: &Graph,
        unset: Unset,
        variable: ContextVariable,
    ) -> Result<Option<StateSurvey>, AllocError>
        requires unset { AreUnset graph.now unset }
        ensures { IfOk result (λ found. IfSome found (spec.IsSurveyed graph.now)) }
    {
        let survey = Survey {
            graph,
            unset,
            variable,
        };
        let rows = survey.rows(alloc)?;
        if !survey.holds(rows.as_slice()) {
            return Ok(None);
        }
        Ok(Some(StateSurvey {
            unset,
            variable,
            rows,
        }))
    }

    /// Whether it follows a finding's variable.
    #[tactic(auto, using(crate::proofs::Variables::place_same))]
    fn is_for(&self, finding: &Finding) -> bool
        ensures { IsTrue result → self.now.variable ≡ spec.followed finding.now.subject }
    {
        self.variable.place() == followed(finding.subject).place()
    }

    /// Whether a finding holds in no possible state.
    fn excludes(&self, finding: &Finding) -> bool
        ensures { result ≡ spec.is_fine_for finding.now.rule finding.now.subject
            (spec.at self.now.rows finding.now.callback finding.now.point) }
    {
        let set = at(self.rows.as_slice(), finding.callback, finding.point);
        is_fine_for(finding.rule, finding.subject, set)
    }

    /// Whether it shows that a finding isn't reached without contexts that nothing sets.
    fn shows_unset(&self, finding: &Finding) -> bool
        ensures { (g : Graph) → spec.IsSurveyed g self.now → IsTrue result → spec.IsNeverGot g finding.now self.now.unset }
    {
        self.unset.is_some() && self.is_for(finding) && self.excludes(finding)
    }

    /// Whether it shows that nothing starts a finding's callback.
    fn shows_unstarted(&self, finding: &Finding) -> bool
        ensures { (g : Graph) → spec.IsSurveyed g self.now → IsTrue result → spec.IsNeverStarted g finding.now }
    {
        if self.unset.is_some() {
            return false;
        }
        if !self.is_for(finding) {
            return false;
        }
        !at(self.rows.as_slice(), finding.callback, 0).is_some()
    }
}

/// Adds the possible states of a variable if nothing sets contexts on some anchors.
fn add_survey(
    alloc: Global,
    graph: &Graph,
    unset: Unset,
    variable: ContextVariable,
    surveyed: &mut Items<StateSurvey>,
) -> Result<(), AllocError>
    requires unset { AreUnset graph.now unset }
    requires old { All (spec.IsSurveyed graph.now) surveyed.old }
    ensures { OnOk result (All (spec.IsSurveyed graph.now) surveyed.new) }
{
    match StateSurvey::of(alloc, graph, unset, variable)? {
        Some(found) => {
            surveyed.push(found)?;
            Ok(())
        }
        None => Ok(()),
    }
}

/// The same for each variable.
fn add_surveys(
    alloc: Global,
    graph: &Graph,
    unset: Unset,
    surveyed: &mut Items<StateSurvey>,
) -> Result<(), AllocError>
    requires unset { AreUnset graph.now unset }
    requires old { All (spec.IsSurveyed graph.now) surveyed.old }
    ensures { OnOk result (All (spec.IsSurveyed graph.now) surveyed.new) }
{
    for variable in VARIABLES {
        add_survey(alloc, graph, unset, variable, surveyed)?;
    }
    Ok(())
}

/// The same, if there is such an anchor.
fn add_some(
    alloc: Global,
    graph: &Graph,
    unset: Unset,
    surveyed: &mut Items<StateSurvey>,
) -> Result<(), AllocError>
    requires unset { AreUnset graph.now unset }
    requires old { All (spec.IsSurveyed graph.now) surveyed.old }
    ensures { OnOk result (All (spec.IsSurveyed graph.now) surveyed.new) }
{
    if unset.is_some() {
        add_surveys(alloc, graph, unset, surveyed)?;
    }
    Ok(())
}

/// The possible states of each variable: in the text as it is, without contexts of the instance, without those of streams, and without
/// both, if nothing sets them.
fn surveys(alloc: Global, graph: &Graph) -> Result<Items<StateSurvey>, AllocError>
    ensures { IfOk result (All (spec.IsSurveyed graph.now)) }
{
    let unset = Unset::of(graph);
    let mut surveyed = Items::new(alloc);
    add_surveys(alloc, graph, Unset::none(), &mut surveyed)?;
    add_some(alloc, graph, unset.of_instance(), &mut surveyed)?;
    add_some(alloc, graph, unset.of_streams(), &mut surveyed)?;
    if unset.stream && unset.instance {
        add_surveys(alloc, graph, unset, &mut surveyed)?;
    }
    Ok(surveyed)
}

impl<'g> Outlook<'g> {
    /// The reach of runs in a filter's text.
    ///
    /// # Errors
    ///
    /// If memory is refused.
    pub fn of(alloc: Global, graph: &'g Graph) -> Result<Outlook<'g>, AllocError>
        ensures { IfOk result (λ o. o ≡ graph.now) }
    {
        let surveyed = surveys(alloc, graph)?;
        Ok(Outlook { graph, surveyed })
    }

    /// The filter's points.
    pub(crate) fn graph(&self) -> &'g Graph
        ensures { result.now ≡ self.now }
    {
        self.graph
    }

    /// The anchors whose context some callback asks for, and on which none sets one.
    pub fn unset(&self) -> Unset
        ensures { AreUnset self.now result }
    {
        Unset::of(self.graph)
    }

    /// The anchors that keep a finding from being reached: calls ask for contexts on them, and nothing sets any.
    pub(crate) fn unset_for(&self, finding: &Finding) -> Option<Unset>
        ensures { IfSome result (spec.IsNeverGot self.now finding.now) }
    {
        for survey in self.surveyed.as_slice() {
            if survey.shows_unset(finding) {
                return Some(survey.unset);
            }
        }
        None
    }

    /// Whether nothing starts a finding's callback.
    pub(crate) fn is_unstarted(&self, finding: &Finding) -> bool
        ensures { IsTrue result → spec.IsNeverStarted self.now finding.now }
    {
        for survey in self.surveyed.as_slice() {
            if survey.shows_unstarted(finding) {
                return true;
            }
        }
        false
    }
}
