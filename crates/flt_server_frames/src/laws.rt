//! Laws of frames.

ghost use Rattle.flt_server_frames.specs.Frames.{AreFrames, Ending, ends, framed};
ghost use Rattle.std.specs.List.{AllByRecursion, flat_map};
ghost use Rattle.std.specs.Prelude.{◌≡◌, ◌≤◌, ℕ, List, length};

/// A stream consists of the frames of one list of bodies only, and has one ending only.
pub fn streams_have_one_reading()
    ensures { (bodies others : List (List ℕ)) (ending end : Ending) (stream : List ℕ) → AreFrames bodies ending stream
        → AreFrames others end stream → (bodies ≡ others) × (ending ≡ end) }
{}

/// Bodies that are written as frames, each of 10^18 bytes at most, are read again, and then the stream ends.
pub fn written_frames_are_read()
    ensures { (bodies : List (List ℕ)) → AllByRecursion (λ body. length body ≤ 1000000000000000000) bodies
        → AreFrames bodies ends (flat_map framed bodies) }
{}
