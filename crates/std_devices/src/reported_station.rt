//! A station whose reads of pages are counted, for people who wait.
ghost use Rattle.std.specs.Prelude.{◌≡◌, ◌≤◌, ◌<◌, ◌^◌, ◌+◌, ◌-◌, length, min, option_map, IsTrue, IfOk, OnErr, OnOk};
ghost use Rattle.disk_model.specs.World.{HasRead, HasWritten, HasSynced, HasSaid, HasDiskCause, HasSinkCause};
ghost use Rattle.disk_model.specs.declared.disk.Area.TheVariants.{Journal, Pages};

use crate::progress::Progress;
use disk_model::{Area, Disk, Failed, Station};
use std::io::Write;
use std::rt::{Clock, Stderr};

/// A station that does what the one within does, and counts the pages that it reads if it has a progress.
///
/// All that contracts know of it is what they know of the station within: what a read gives, what a write and a sync leave, what is
/// printed, its faults, and what a crash may leave. A line of the progress goes to another output, and only in a read of pages.
#[derive(Drop)]
pub struct ReportedStation<'a, T: Station + Drop, C: Clock, W: Write + Drop = Stderr> {
    station: T,
    progress: Option<Progress<'a, C, W>>,
}

impl<'a, T: Station + Drop, C: Clock, W: Write + Drop> ReportedStation<'a, T, C, W> {
    /// Returns a station over another one. With `None` it says nothing.
    pub fn new(station: T, progress: Option<Progress<'a, C, W>>) -> ReportedStation<'a, T, C, W>
        ensures station { result.station ≡ station }
        ensures progress { result.progress ≡ progress.entry }
    {
        ReportedStation { station, progress }
    }

    /// Returns the station within.
    pub fn station(&self) -> &T
        ensures { result.now ≡ self.now.station }
    {
        &self.station
    }
}

impl<'a, T: Station + Drop, C: Clock, W: Write + Drop> Disk for ReportedStation<'a, T, C, W> {
    ghost readable = { T.readable };

    ghost world = { λ reported. T.world reported.station };

    ghost room_of = { λ reported. T.room_of reported.station };

    ghost leaves_seen = { λ reported. T.leaves_seen reported.station };

    ghost counts_now = { λ reported. T.counts_now reported.station };

    ghost only_now = { λ reported. T.only_now reported.station };

    fn room(&self) -> u32 {
        self.station.room()
    }

    fn read(&mut self, area: Area, at: u64, buf: &mut [u8]) -> Result<(), Failed>
        requires { at + length buf.old < 2 ^ 48 }
        ensures told { IsTrue T.readable → HasRead area at buf.new (T.world self.old.station) (T.world self.new.station) result }
        ensures cause { HasDiskCause (T.world self.old.station) (T.world self.new.station) result }
        ensures room { T.room_of self.new.station ≡ T.room_of self.old.station }
        ensures counted { OnOk result (area ≡ Pages → option_map (λ p. p.read) self.new.progress ≡ option_map (λ p. min (p.read + 1) (2 ^ 64 - 1)) self.old.progress) }
        ensures journal { area ≡ Journal → self.new.progress ≡ self.old.progress }
        ensures failed { OnErr result (self.new.progress ≡ self.old.progress) }
    {
        self.station.read(area, at, buf)?;
        if let (Area::Pages, Some(progress)) = (area, &mut self.progress) {
            progress.count();
        }
        Ok(())
    }

    fn write(&mut self, area: Area, at: u64, bytes: &[u8]) -> Result<(), Failed>
        requires { at + length bytes.now < 2 ^ 48 }
        ensures told { IsTrue T.readable → HasWritten area at bytes.now (T.world self.old.station) (T.world self.new.station) result }
        ensures cause { HasDiskCause (T.world self.old.station) (T.world self.new.station) result }
        ensures room { T.room_of self.new.station ≡ T.room_of self.old.station }
        ensures progress { self.new.progress ≡ self.old.progress }
    {
        self.station.write(area, at, bytes)
    }

    fn sync(&mut self, area: Area) -> Result<(), Failed>
        ensures told { IsTrue T.readable → HasSynced area (T.world self.old.station) (T.world self.new.station) result }
        ensures cause { HasDiskCause (T.world self.old.station) (T.world self.new.station) result }
        ensures room { T.room_of self.new.station ≡ T.room_of self.old.station }
        ensures progress { self.new.progress ≡ self.old.progress }
    {
        self.station.sync(area)
    }
}

impl<'a, T: Station + Drop, C: Clock, W: Write + Drop> Station for ReportedStation<'a, T, C, W> {
    fn say(&mut self, bytes: &[u8]) -> Result<usize, Failed>
        requires { 0 < length bytes.now }
        ensures count { IfOk result (λ n. (0 < n) × (n ≤ length bytes.now)) }
        ensures told { IsTrue T.readable → HasSaid bytes.now (T.world self.old.station) (T.world self.new.station) result }
        ensures cause { HasSinkCause (T.world self.old.station) (T.world self.new.station) result }
        ensures room { T.room_of self.new.station ≡ T.room_of self.old.station }
        ensures progress { self.new.progress ≡ self.old.progress }
    {
        self.station.say(bytes)
    }
}
