//! The devices that a program hands in.

pub(crate) use host_devices::{FileShelf, StdoutSink, read_once};
