//! Laws of frames.
ghost use Rattle.std.specs.Prelude.{◌≡◌, ◌++◌, ℕ, List, None};
ghost use Rattle.std.specs.List.{flat_map};
ghost use Rattle.dap_frames.specs.Decoding.{Partial, bodies_before, decode, fault_of, start};
ghost use Rattle.dap_frames.specs.Frames.{AreFrames, Begins};

/// The bodies of a stream don't depend on how it is divided into pieces.
pub fn pieces_do_not_matter()
    ensures { (p : Partial) (a b : List ℕ) → decode p (a ++ b)
        ≡ bodies_before (decode p a).bodies (decode (decode p a).rest b) }
{}

/// Frames decode to their bodies, whatever follows them. A prefix of frames is not refused.
pub fn frames_decode()
    ensures bodies { (frames bodies : List (List ℕ)) (more : List ℕ) → AreFrames frames bodies
        → decode start (flat_map (λ f. f) frames ++ more)
        ≡ bodies_before bodies (decode start more) }
    ensures prefixes { (bytes more : List ℕ) (frames bodies : List (List ℕ))
        → AreFrames frames bodies → bytes ++ more ≡ flat_map (λ f. f) frames
        → fault_of (decode start bytes).rest ≡ None }
{}

/// A stream that decodes to some bodies begins with frames of them.
pub fn bodies_have_frames()
    ensures { (bytes : List ℕ) → Begins bytes (decode start bytes).bodies }
{}
