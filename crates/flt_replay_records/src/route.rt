//! The frames of an operation's route: post callbacks that will be called, in the order of the filters.

ghost use Rattle.std.specs.Prelude.{◌≡◌, ◌++◌, ◌<◌, Bool, Some, None, find, position, length, remove, slice_get, MatchOption};
ghost use Rattle.std.specs.List.{before_first, after_first};
ghost use Rattle.flt_model.specs.Moves as moves;
ghost use Rattle.flt_model.specs.declared.parts.Position.TheVariants.{Visiting};

use crate::parts::{Frame, Route};
use flt_model::Position;

impl Route {
    /// Takes out the frame of the lowest filter, and begins its visit.
    #[tactic(auto, using(flt_model::proofs::LastFrames::last_after, flt_model::proofs::LastFrames::without_after))]
    pub fn visit_last_frame(&mut self) -> Option<Frame>
        ensures { MatchOption result (moves.last_frame self.old.frames ≡ None)
            (λ f. (moves.last_frame self.old.frames ≡ Some f)
            × (self.new ≡ record self.old { position = Visiting; frames = moves.without_last self.old.frames })) }
    {
        let frame = self.frames.pop();
        if frame.is_some() {
            self.position = Position::Visiting;
        }
        give_back(&mut self.frames);
        frame
    }

    /// The place of the first frame of a filter.
    fn frame_place(&self, filter: usize) -> Option<usize>
        ensures { result ≡ position (moves.is_frame_of filter) self.now.frames }
    {
        self.frames
            .as_slice()
            .iter()
            .position(|frame| is_frame_of(filter, frame))
    }

    /// Takes out the first frame of a filter.
    pub fn take_frame(&mut self, filter: usize) -> Option<Frame>
        ensures { MatchOption result (find (moves.is_frame_of filter) self.old.frames ≡ None)
            (λ f. (find (moves.is_frame_of filter) self.old.frames ≡ Some f)
            × (self.new ≡ record self.old { frames = moves.other_frames filter self.old.frames })) }
    {
        let place = self.frame_place(filter);
        let frame = take_out(&mut self.frames, place);
        give_back(&mut self.frames);
        frame
    }

    /// Whether a post callback of the filter will be called.
    pub fn has_frame(&self, filter: usize) -> bool
        ensures { result ≡ moves.has_frame filter self.now }
    {
        self.frames
            .as_slice()
            .iter()
            .any(|frame| is_frame_of(filter, frame))
    }
}

/// Gives the memory of frames back, if none is left.
fn give_back(frames: &mut Vec<Frame>)
    ensures { frames.new.items ≡ frames.old.items }
{
    if frames.is_empty() {
        frames.shrink_to_fit();
    }
}

fn is_frame_of(filter: usize, frame: &Frame) -> bool
    ensures { result ≡ moves.is_frame_of filter frame.now }
{
    frame.filter as usize == filter
}

fn remove_at<T: Drop>(items: &mut Vec<T>, place: usize) -> T
    requires { place < length items.old.items }
    ensures item { slice_get items.old.items place ≡ Some result }
    ensures rest { items.new.items ≡ remove items.old.items place }
{
    items.remove(place)
}

/// Takes out the item at a place, if one is given.
#[tactic(auto, using(flt_tree::proofs::FirstPlaces::found_there, flt_tree::proofs::FirstPlaces::without, flt_tree::proofs::FirstPlaces::none_found, flt_tree::proofs::FirstPlaces::within))]
fn take_out<T: Drop>(items: &mut Vec<T>, place: Option<usize>) -> Option<T>
    ensures { (test : T → Bool) → place ≡ position test items.old.items →
        MatchOption result (find test items.old.items ≡ None)
        (λ x. (find test items.old.items ≡ Some x)
        × (items.new.items ≡ before_first test items.old.items ++ after_first test items.old.items)) }
{
    match place {
        Some(place) if place < items.len() => Some(remove_at(items, place)),
        _ => None,
    }
}
