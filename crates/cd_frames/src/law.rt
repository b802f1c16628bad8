//! Laws of the definitions, each the contract of a function that does nothing.
ghost use Rattle.std.specs.Prelude.{◌≡◌, ℕ, ◌<◌, List, [], ◌++◌, length, All, Some, None, is_some};
ghost use Rattle.cd_types.specs.Format.{IsBytes};
ghost use Rattle.cd_frames.specs.declared.frame.FrameFault.{FrameFault};
ghost use Rattle.std.specs.Prelude.{Option};
ghost use Rattle.cd_frames.specs.Frame.{body_bytes, frame_bytes, message_in, IsFrame, IsMessage};
ghost use Rattle.cd_frames.specs.Message.{Message};
ghost use Rattle.cd_frames.specs.Reading.{Reading, front};
ghost use Rattle.cd_frames.specs.Run.{Run};
ghost use Rattle.cd_frames.specs.Stream.{frames_of, joined, refuses, waits, AreFramesOf};
ghost use Rattle.cd_frames.specs.Symbols.{is_symbols, pairs_of, symbols_bytes, with_pairs, AreNew, ArePairs};

/// What is written behind a frame's length is read as what the frame says, and nothing else is read so. No frame's bytes begin
/// another frame's bytes.
#[tactic(auto, using(crate::proofs::FrameLaw::message_again))]
pub fn law_of_frames()
    ensures again { (message : Message) → IsMessage message → message_in (body_bytes message) ≡ Some message }
    ensures only { (bytes : List ℕ) (message : Message) → IsBytes bytes → message_in bytes ≡ Some message
        → (bytes ≡ body_bytes message) × IsMessage message }
    ensures apart { (one other : Message) (more : List ℕ) → IsFrame one → IsFrame other → frame_bytes other ≡ frame_bytes one ++ more
        → (one ≡ other) × (more ≡ []) }
{}

/// `frames_of` gives the longest list of frames whose bytes, joined, are a front of the stream, with the fault in the next place or
/// none; no other list is that. The frames of joined frames are they.
pub fn law_of_streams()
    ensures found { (bytes : List ℕ) → IsBytes bytes → AreFramesOf bytes (frames_of bytes).0 (frames_of bytes).1 }
    ensures only { (bytes : List ℕ) (messages : List Message) (why : Option FrameFault) → IsBytes bytes → AreFramesOf bytes messages why
        → frames_of bytes ≡ (messages, why) }
    ensures joined { (messages : List Message) → All IsFrame messages → frames_of (joined messages) ≡ (messages, None) }
{}

/// After any calls of `room`, `filled` and `step`, in any order, what was passed begins the list of the stream's frames.
/// Where the reader waits, all were passed and no fault stands next; where it refuses, all were passed and that fault stands next.
pub fn law_of_readers()
    ensures given { (stream : List ℕ) (given : List Message) (reader : Reading) → Run stream given reader
        → (more : List Message) × ((frames_of stream).0 ≡ given ++ more) }
    ensures waiting { (stream : List ℕ) (given : List Message) (reader : Reading) → Run stream given reader → front reader ≡ waits
        → frames_of stream ≡ (given, None) }
    ensures refusing { (stream : List ℕ) (given : List Message) (reader : Reading) (why : FrameFault) → Run stream given reader → front reader ≡ refuses why
        → frames_of stream ≡ (given, Some why) }
{}

/// What is written as symbols is read as those symbols, and nothing else is. Where each name is in upper case and stands once, as in
/// symbols that were given one by one, the symbols that are made of them are the same.
pub fn law_of_symbols()
    ensures again { (pairs : List (List ℕ × List ℕ)) → ArePairs pairs → length pairs < 65536 → pairs_of (symbols_bytes pairs) ≡ Some pairs }
    ensures only { (bytes : List ℕ) (pairs : List (List ℕ × List ℕ)) → IsBytes bytes → pairs_of bytes ≡ Some pairs
        → (bytes ≡ symbols_bytes pairs) × ArePairs pairs × (length pairs < 65536) }
    ensures test { (bytes : List ℕ) → is_symbols bytes ≡ is_some (pairs_of bytes) }
    ensures same { (pairs : List (List ℕ × List ℕ)) → AreNew [] pairs → with_pairs [] pairs ≡ pairs }
{}
