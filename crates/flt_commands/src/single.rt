//! The law that a command line has at most one answer.

ghost use Rattle.std.specs.Prelude.{◌≡◌, Bool, List, Option, Result};
ghost use Rattle.flt_commands_texts.specs.Analyse.{IsAnalysed};
ghost use Rattle.flt_files.specs.Attempts.{Does};
ghost use Rattle.flt_commands_texts.specs.Check.{HasPoints, IsChecked};
ghost use Rattle.flt_commands.specs.Commands.{Answers, IsSaid};
ghost use Rattle.flt_files.specs.Inputs.{Text};
ghost use Rattle.flt_commands_runs.specs.Replay.{IsReplayed};
ghost use Rattle.flt_commands.specs.Single as spec;
ghost use Rattle.flt_commands_texts.specs.Thin.{IsThinned};
ghost use Rattle.flt_words.specs.Request.{Asked};
ghost use Rattle.flt_commands.specs.declared.answer.Answer.{Answer};
ghost use Rattle.flt_commands.specs.declared.answer.Answer.TheVariants.{OfRun, OfText};
ghost use Rattle.flt_files.specs.declared.failure.Failure.{Failure};
ghost use Rattle.flt_commands.specs.declared.report.Report.{Report};
ghost use Rattle.flt_graph.specs.declared.graph.Graph.{Graph};

use flt_analyse::{one_certificate_is_least, one_fault_is_named};
use flt_c_functions::lists_at_most_one;
use flt_cert::{one_certificate_is_spelled, one_fault_is_first};
use flt_check::one_refusal_at_most;
use flt_commands_texts::HeaderInputs;
use flt_files::{Inputs, Pictures};
use flt_graph::one_graph_at_most;
use flt_model::{one_first_fault_at_most, one_journal_is_spelled};
use flt_syntax::{
    fails_exactly_where_nothing_is_spelled, spelled_is_well_formed, spells_at_most_one,
};

/// A text has at most one graph. It does nothing at run time: its clause is the law.
fn texts_have_one_graph()
    ensures { (text : Text) (g h : Graph) → HasPoints text g → HasPoints text h → g ≡ h }
{
    spells_at_most_one();
    spelled_is_well_formed();
    one_graph_at_most();
}

/// `check` has at most one answer to some bytes. It does nothing at run time: its clause is the law.
fn one_check_at_most()
    ensures { spec.SaysOne OfText IsChecked }
{
    texts_have_one_graph();
    fails_exactly_where_nothing_is_spelled();
    one_certificate_is_spelled();
    one_fault_is_first();
    one_refusal_at_most();
}

/// `thin` has at most one answer to some bytes. It does nothing at run time: its clause is the law.
fn one_thin_at_most()
    ensures { spec.SaysOne OfText IsThinned }
{
    texts_have_one_graph();
    fails_exactly_where_nothing_is_spelled();
    one_certificate_is_spelled();
    one_fault_is_first();
    one_refusal_at_most();
}

/// `analyse` has at most one answer to some bytes. It does nothing at run time: its clause is the law.
fn one_analysis_at_most()
    ensures { spec.SaysOne OfText IsAnalysed }
{
    texts_have_one_graph();
    fails_exactly_where_nothing_is_spelled();
    one_certificate_is_least();
    one_fault_is_named();
}

/// `replay` has at most one answer to some bytes. It does nothing at run time: its clause is the law.
fn one_verdict_at_most()
    ensures { spec.SaysOne OfRun IsReplayed }
{
    spells_at_most_one();
    fails_exactly_where_nothing_is_spelled();
    one_journal_is_spelled();
    one_first_fault_at_most();
}

/// `draft --functions` has at most one answer to some bytes, if the inputs give one thing for each name. It does nothing at run time: its
/// clause is the law.
fn one_listing_at_most<I: Inputs>()
    ensures { (inputs : I) → spec.GivesOne (I.gives inputs) → spec.ListsOne (I.gives inputs) }
{
    lists_at_most_one::<HeaderInputs<'_, I>>();
}

/// A command line has at most one answer if the inputs give one thing for each name and it asks for no run, no journal that is shown, no
/// reports, no page, no layout that is written and no part of a driver. It has one output and one exit status at most, and one reason why
/// there is no answer, unless memory ran out. It does nothing at run time: its clauses are the law.
pub fn one_answer_at_most<I: Inputs, P: Pictures>()
    ensures one { (inputs : I) (before pictures past others : P) (shown showing : Bool) (request : Option Asked) (a b : Report) →
        spec.AskForOne request →
        spec.GivesOne (I.gives inputs) → Answers shown (I.gives inputs) (P.written pictures)
        (Does (pictures ≡ before) (P.done before) (P.done pictures)) request a →
        Answers showing (I.gives inputs) (P.written others)
        (Does (others ≡ past) (P.done past) (P.done others)) request b → (a.output.items ≡ b.output.items) × (a.status ≡ b.status) }
    ensures said { (inputs : I) (shown showing : Bool) (request : Asked) (codes others : List (Option Text)) (texts more : List Text)
        (a b : Result Answer Failure) → spec.HasOneAnswer request → spec.GivesOne (I.gives inputs) →
        IsSaid shown (I.gives inputs) request codes texts a → IsSaid showing (I.gives inputs) request others more b → spec.AreSame a b }
{
    one_check_at_most();
    one_analysis_at_most();
    one_thin_at_most();
    one_verdict_at_most();
    one_listing_at_most::<I>();
    fails_exactly_where_nothing_is_spelled();
}
