//! Laws of the definitions, each the contract of a function that does nothing.

ghost use Rattle.cj_reply.specs.Laws.{EncodedRepliesAreDecoded, FramesHaveOneReply};

/// The law that bytes are the frame of at most one reply.
pub fn frames_have_one_reply()
    ensures { FramesHaveOneReply }
{}

/// The law that an encoded reply that fits the wire is decoded as this reply, unless an allocation fails.
#[tactic(auto, using(crate::proofs::Frames::encoded_decoded))]
pub fn encoded_replies_are_decoded()
    ensures { EncodedRepliesAreDecoded }
{}
