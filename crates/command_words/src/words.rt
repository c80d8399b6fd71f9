use arrayvec::ArrayVec;

/// The most schedules of a fleet, one for each station.
pub const MOST_SCHEDULES: usize = 8;

/// What the words `station SETTINGS ARCHIVE ADDRESS` name, and those of `stay` too.
#[derive(Clone, Copy, Debug)]
pub struct StationWords<'a> {
    /// The name of the settings file.
    pub settings: &'a str,
    /// The name of the archive that is written.
    pub archive: &'a str,
    /// Where the console is called.
    pub address: &'a str,
}

/// What the words `console SETTINGS SCHEDULE ADDRESS TURNS` name.
#[derive(Clone, Copy, Debug)]
pub struct ConsoleWords<'a> {
    /// The name of the settings file.
    pub settings: &'a str,
    /// The name of the schedule's file.
    pub schedule: &'a str,
    /// Where a call is waited for.
    pub address: &'a str,
    /// For how many turns the console is served, 1 to 1,000,000.
    pub turns: u32,
}

/// What the words `fleet SETTINGS SEED SCHEDULE ..` name.
#[derive(Debug, Drop)]
pub struct FleetWords<'a> {
    /// The name of the settings file.
    pub settings: &'a str,
    /// The number from which the turns are drawn, below 2^31.
    pub seed: u32,
    /// The names of the schedules' files, one to eight.
    pub schedules: ArrayVec<&'a str, MOST_SCHEDULES>,
}
