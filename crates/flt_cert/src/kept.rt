//! The points that a thin certificate keeps.

ghost use Rattle.std.specs.Prelude.{◌≡◌, ◌+◌, ◌<◌, ◌||◌, ℕ, false, get_or, length, nat_lt};
ghost use Rattle.flt_cert.specs.Counts.{AreCounts};
ghost use Rattle.flt_graph.specs.Graph.{instruction_at};
ghost use Rattle.flt_graph.specs.Kept as spec;

use flt_graph::{Graph, Instruction};
use flt_rules::MAX_POINTS;

/// Counts one more edge into a point, two at most.
#[inline(always)]
fn count_edge(edges: &mut [u8], to: usize)
    requires { length edges.old ≡ 512 }
    ensures { (many : ℕ → ℕ) → AreCounts edges.old many → AreCounts edges.new (λ p. many p + spec.edge to p) }
{
    if MAX_POINTS <= to {
        return;
    }
    if edges[to] < 2 {
        edges[to] += 1;
    }
}

/// Counts the edges of an instruction.
fn count_edges(edges: &mut [u8], instruction: &Instruction)
    requires { length edges.old ≡ 512 }
    ensures { (many : ℕ → ℕ) → AreCounts edges.old many → AreCounts edges.new (λ p. many p + spec.edges_of instruction.now p) }
{
    match instruction {
        Instruction::Act(_, next) => count_edge(edges, *next),
        Instruction::Call(call, granted, failed) => {
            count_edge(edges, *granted);
            if call.can_fail() {
                count_edge(edges, *failed);
            }
        }
        Instruction::Test(_, granted, refused) => {
            count_edge(edges, *granted);
            count_edge(edges, *refused);
        }
        Instruction::Repeat(_, body, next) => {
            count_edge(edges, *body);
            count_edge(edges, *next);
        }
        Instruction::Return(_) | Instruction::End => {}
    }
}

/// The number of edges that lead into each point of a callback, two at most.
fn edges_in(graph: &Graph, callback: usize) -> [u8; MAX_POINTS]
    ensures counts { AreCounts result (spec.edges_into graph.now callback) }
    ensures long { length result ≡ 512 }
{
    let mut edges = [0; MAX_POINTS];
    for point in 0..graph.points(callback) {
        count_edges(&mut edges, graph.instruction_ref(callback, point));
    }
    edges
}

fn is_repeat(instruction: &Instruction) -> bool
    ensures { result ≡ spec.is_repeat instruction.now }
{
    matches!(instruction, Instruction::Repeat(_, _, _))
}

/// Whether two edges or more lead into each point, up to 512 points, by the counts of edges.
fn joined_points(edges: &[u8; MAX_POINTS]) -> [bool; MAX_POINTS]
    ensures joined { (p : ℕ) → p < 512 → get_or result p false ≡ nat_lt 1 (get_or edges.now p 0) }
    ensures count { length result ≡ 512 }
{
    let mut joined = [false; MAX_POINTS];
    for point in 0..MAX_POINTS {
        joined[point] = 1 < edges[point];
    }
    joined
}

/// Keeps each `repeat` of a callback. Points beyond its last one aren't looked at.
fn keep_repeats(graph: &Graph, callback: usize, kept: &mut [bool])
    requires { length kept.old ≡ 512 }
    ensures kept { (p : ℕ) → p < 512 →
        get_or kept.new p false ≡ (spec.is_repeat (instruction_at graph.now callback p) || get_or kept.old p false) }
    ensures count { length kept.new ≡ 512 }
{
    for point in 0..graph.points(callback) {
        if point < MAX_POINTS && is_repeat(graph.instruction_ref(callback, point)) {
            kept[point] = true;
        }
    }
}

/// Whether each point of a callback is kept, up to 512 points: the first one, each `repeat`, and each one into which two edges or more
/// lead. The two sides of one statement count as two.
pub fn kept_points(graph: &Graph, callback: usize) -> [bool; MAX_POINTS]
    ensures kept { (p : ℕ) → p < 512 → get_or result p false ≡ spec.is_kept graph.now callback p }
    ensures count { length result ≡ 512 }
{
    let edges = edges_in(graph, callback);
    let mut kept = joined_points(&edges);
    keep_repeats(graph, callback, &mut kept);
    kept[0] = true;
    kept
}
