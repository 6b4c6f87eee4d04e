// Why a stream is none of frames.
ghost use Rattle.std.specs.Prelude.{◌≡◌};
ghost use Rattle.cedar_frames.specs.Frames.{fault_name};

/// Why bytes are no frame.
#[derive(Clone, Copy, Debug, PartialEq, Eq)]
pub enum Fault {
    /// 33 bytes without a line feed, or a line that is no head.
    BadHead,
    /// A head whose length is over the limit.
    TooLong,
    /// The input ends inside a frame.
    Truncated,
    /// Another byte than a line feed stands behind the body.
    NoLineFeed,
    /// A frame begins behind as many as can be counted.
    TooMany,
}

impl Fault {
    /// How it is written.
    pub fn name(self) -> &'static str
        ensures { result.now ≡ fault_name self }
    {
        match self {
            Fault::BadHead => "BadHead",
            Fault::TooLong => "TooLong",
            Fault::Truncated => "Truncated",
            Fault::NoLineFeed => "NoLineFeed",
            Fault::TooMany => "TooMany",
        }
    }
}
