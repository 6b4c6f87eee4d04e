// What holds of frames, as contracts of functions that do nothing.
ghost use Rattle.cedar_frames.specs.Laws.{CommandsHaveAFrame, AFrameIsOne, FramesBegin, FramesAreOne, FaultsHoldNoFrame, FaultsStay, FaultsAreOne};

/// Each command whose body is within the limit has one frame.
pub fn commands_have_a_frame()
    ensures { CommandsHaveAFrame }
{}

/// A frame that stands at the front of some bytes is the only one that does, and has one verb and
/// one body.
pub fn a_frame_is_one()
    ensures { AFrameIsOne }
{}

/// Of two lists of frames at the front of the same bytes, the one that isn't longer is the
/// beginning of the other.
pub fn frames_begin()
    ensures { FramesBegin }
{}

/// Two lists of as many frames at the front of the same bytes are one.
pub fn frames_are_one()
    ensures { FramesAreOne }
{}

/// What shows a fault has no frame at its front, and so is none.
pub fn faults_hold_no_frame()
    ensures { FaultsHoldNoFrame }
{}

/// Where a fault stands no frame does, whatever is left behind the byte that shows it. So it is with
/// `Truncated` where nothing is left; `TooMany` is a matter of the count.
pub fn faults_stay()
    ensures { FaultsStay }
{}

/// Where a fault stands no other one does.
pub fn faults_are_one()
    ensures { FaultsAreOne }
{}
