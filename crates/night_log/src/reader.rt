// A reader keeps hold of the caller's bytes and its place in them, and hands out one outcome a call.
// Opening and each call refuse by 15, then by 16, and a refusal keeps the place.
ghost use Rattle.night_log.specs.Reader.{ReaderOpenedAs, NextAs};

use super::{open_log, read_log};
use layout::Refused;

// `opened` is what opening answered: a reader is opened on any bytes, so it stands beside them.
#[derive(Clone, Copy)]
pub struct LogReader<'a> {
    pub log: &'a [u8],
    pub place: usize,
    pub opened: Result<(), Refused>,
}

impl<'a> LogReader<'a> {
    pub fn open(log: &'a [u8]) -> LogReader<'a>
        ensures { ReaderOpenedAs log.entry result }
    {
        LogReader {
            log,
            place: 0,
            opened: open_log(log),
        }
    }

    pub fn next<'s>(&'s mut self) -> Result<Option<bool>, Refused>
        ensures { NextAs self.old self.new result }
    {
        read_log(self.log, &mut self.place)
    }
}
