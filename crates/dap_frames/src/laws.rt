// What holds of all frames, the contract of a function that does nothing.
ghost use Rattle.dap_frames.specs.Laws.{FramesComeBack};

/// Behind a frame of at most 4 MB anything may stand: what was framed comes back, and what stands behind.
pub fn frames_come_back()
    ensures { FramesComeBack }
{}
