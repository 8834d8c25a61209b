//! The texts of polygons, certificates, sessions and questions: what they say, and their readers.
#![tactic(auto)]

mod ask_reader;
mod cert_feed;
mod cert_reader;
mod gathered;
mod leaf;
mod live_reader;
mod outline;
mod polygon_reader;
mod questions;
mod ring;
mod session_lines;
mod tree;
mod vertex;

pub use ask_reader::{AskReader, one_ask_input, read_ask};
pub use cert_feed::{CertFeed, NodeAt};
pub use cert_reader::{CertPhase, CertReader, one_certificate, read_cert};
pub use gathered::{Events, PathStack};
pub use leaf::Leaf;
pub use live_reader::{LiveReader, one_live_input, one_live_text, read_live};
pub use outline::Outline;
pub use polygon_reader::{PolygonReader, one_polygon, read_polygon};
pub use questions::Questions;
pub use ring::Ring;
pub use session_lines::{SessionLines, Stage};
pub use srs_cert::{Cert, word_of};
pub use srs_line::{FileErr, Slip};
pub use tree::{Node, Tree};
