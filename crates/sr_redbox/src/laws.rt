//! What holds of every RedBox.
ghost use Rattle.sr_redbox.specs.Nets.{NoFrameGoesBack, PathsNameNets};

/// No frame of a PRP network goes from the ring back into one of its LANs: what came from there carries the network's number in
/// its path, and no RedBox of that network puts a frame with such a path out at its interlink.
pub fn no_frame_goes_back_into_its_network()
    ensures paths { PathsNameNets }
    ensures routes { NoFrameGoesBack }
{}
