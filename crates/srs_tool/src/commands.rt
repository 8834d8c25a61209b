// What the program does, and what it reads for that.
ghost use Rattle.std.specs.Prelude.{◌≡◌};
ghost use Rattle.srs_tool.specs.Inputs.{input_of, longest};

use srs_path::Limits;

/// What the words ask for.
#[derive(Drop)]
pub enum Command {
    /// To divide the polygon that is read, and print its certificate.
    Certify(Limits),
    /// To divide the polygon that is read by so many workers beside each other, 1 to 16, and print
    /// the journal and the certificate.
    Live(Limits, u32),
    /// To check the certificate that is read.
    Check,
    /// To check the certificate that is read, and print its map: so many columns and rows, each 1 to 200.
    Map(u32, u32),
    /// To check the certificate that is read, and answer the questions behind it.
    Ask,
    /// To print the input of `live` that the seed gives with so many points. The seed is below
    /// 2^31, the points are at most 10000.
    Make(u32, u32),
    /// To certify the polygon of that input, answer its points, and print how many cells and points
    /// there are of each kind.
    Bench(u32, u32),
}

impl Command {
    /// What the command reads.
    pub fn input(&self) -> Input
        ensures { result ≡ input_of self.now }
    {
        match self {
            Command::Certify(_) => Input::Polygon,
            Command::Live(_, _) => Input::Sessions,
            Command::Check | Command::Map(_, _) => Input::Certificate,
            Command::Ask => Input::Questions,
            Command::Make(_, _) | Command::Bench(_, _) => Input::Nothing,
        }
    }
}

/// What is read.
#[derive(Clone, Copy, Drop)]
pub enum Input {
    /// Nothing: the source is left as it is.
    Nothing,
    /// A polygon: at most 2^20 bytes.
    Polygon,
    /// A polygon and sessions behind it, of which there are none yet: at most 2^20 bytes.
    Sessions,
    /// A certificate: at most 2^27 bytes.
    Certificate,
    /// A certificate and questions behind it: at most 2^27 bytes.
    Questions,
}

impl Input {
    /// The longest such input that is read, in bytes.
    pub fn longest(self) -> u64
        ensures { result ≡ longest self }
    {
        match self {
            Input::Nothing => 0,
            Input::Polygon | Input::Sessions => 1 << 20,
            Input::Certificate | Input::Questions => 1 << 27,
        }
    }
}
