//! Altitudes: whether two filters of a run have the same one, and the place of a filter by its altitude.

ghost use Rattle.std.specs.Prelude.{◌≡◌, ◌==◌, List, insert, MatchOption};
ghost use Rattle.std.specs.List.{list_any};
ghost use Rattle.flt_model.specs.Program as spec;
ghost use Rattle.flt_tree.specs.declared.filter.Filter.{Filter};

use flt_tree::Tree;

/// Whether one of the filters has this altitude.
fn has_altitude(trees: &[Tree], altitude: u64) -> bool
    ensures { result ≡ list_any (λ tree. tree.filter.altitude == altitude) trees.now }
{
    trees.iter().any(|tree| tree.filter.altitude == altitude)
}

/// The first filter whose altitude an earlier one has, by its number from 0, or none if all altitudes differ.
pub fn first_repeated(trees: &[Tree]) -> Option<usize>
    ensures { MatchOption result (spec.HasDistinctAltitudes (spec.filters_of trees.now)) (spec.IsRepeated (spec.filters_of trees.now)) }
{
    for (number, tree) in trees.iter().enumerate() {
        if has_altitude(&trees[..number], tree.filter.altitude) {
            return Some(number);
        }
    }
    None
}

/// A filter is inserted at the place of the first lower one, by its number from 0. It does nothing at run time: its clause is the law.
pub fn filters_have_places()
    ensures { (f : Filter) (filters : List Filter) → spec.put_by_altitude f filters ≡ insert filters (spec.first_lower f filters) f }
{}
