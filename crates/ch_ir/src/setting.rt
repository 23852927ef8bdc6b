ghost use Rattle.std.specs.Prelude.{◌≡◌, ◌<◌};
ghost use Rattle.ch_ir.specs.Profile.{name_of, range_of, with_setting, setting_among, setting_named, number_of_setting};

use crate::profile::Profile;

/// A number of a profile.
#[derive(Clone, Copy)]
pub enum Setting {
    Stages,
    Cells,
    Ops,
    Words,
    Width,
    Window,
    DistinctRows,
    DistinctCols,
    GroupRows,
    GroupCols,
    TopSteps,
    TopGap,
    SketchHashes,
    SketchCells,
    BloomHashes,
    BloomCells,
    SkylinePoints,
}

const SETTINGS: [Setting; 17] = [
    Setting::Stages,
    Setting::Cells,
    Setting::Ops,
    Setting::Words,
    Setting::Width,
    Setting::Window,
    Setting::DistinctRows,
    Setting::DistinctCols,
    Setting::GroupRows,
    Setting::GroupCols,
    Setting::TopSteps,
    Setting::TopGap,
    Setting::SketchHashes,
    Setting::SketchCells,
    Setting::BloomHashes,
    Setting::BloomCells,
    Setting::SkylinePoints,
];

/// The first of the settings that has this name.
fn named_among(settings: &[Setting], name: &[u8]) -> Option<Setting>
    ensures { result ≡ setting_among settings.now name.now }
{
    for setting in settings {
        if setting.name() == name {
            return Some(*setting);
        }
    }
    None
}

/// The least and the greatest value of a setting.
#[derive(Clone, Copy)]
pub struct Range {
    pub low: u32,
    pub high: u32,
}

impl Setting {
    /// Its name in a profile text.
    fn name(self) -> &'static [u8]
        ensures { result.now ≡ name_of self }
    {
        match self {
            Setting::Stages => b"stages",
            Setting::Cells => b"cells",
            Setting::Ops => b"ops",
            Setting::Words => b"words",
            Setting::Width => b"width",
            Setting::Window => b"window",
            Setting::DistinctRows => b"distinct_rows",
            Setting::DistinctCols => b"distinct_cols",
            Setting::GroupRows => b"group_rows",
            Setting::GroupCols => b"group_cols",
            Setting::TopSteps => b"top_steps",
            Setting::TopGap => b"top_gap",
            Setting::SketchHashes => b"sketch_hashes",
            Setting::SketchCells => b"sketch_cells",
            Setting::BloomHashes => b"bloom_hashes",
            Setting::BloomCells => b"bloom_cells",
            Setting::SkylinePoints => b"skyline_points",
        }
    }

    pub fn range(self) -> Range
        ensures { result ≡ range_of self }
    {
        match self {
            Setting::Stages => Range { low: 1, high: 256 },
            Setting::Cells => Range {
                low: 1,
                high: 1_048_576,
            },
            Setting::Ops => Range { low: 48, high: 256 },
            Setting::Words => Range {
                low: 64,
                high: 8192,
            },
            Setting::Width => Range { low: 1, high: 20 },
            Setting::Window => Range { low: 1, high: 256 },
            Setting::DistinctRows => Range {
                low: 1,
                high: 65_536,
            },
            Setting::DistinctCols => Range { low: 1, high: 16 },
            Setting::GroupRows => Range {
                low: 1,
                high: 65_536,
            },
            Setting::GroupCols => Range { low: 1, high: 16 },
            Setting::TopSteps => Range { low: 0, high: 40 },
            Setting::TopGap => Range {
                low: 1,
                high: 1_048_576,
            },
            Setting::SketchHashes => Range { low: 1, high: 8 },
            Setting::SketchCells => Range {
                low: 1,
                high: 65_536,
            },
            Setting::BloomHashes => Range { low: 1, high: 8 },
            Setting::BloomCells => Range {
                low: 1,
                high: 65_536,
            },
            Setting::SkylinePoints => Range { low: 1, high: 16 },
        }
    }

    /// Its place among the settings.
    pub fn number(self) -> usize
        ensures place { result ≡ number_of_setting self }
        ensures below { result < 17 }
    {
        self as usize
    }

    /// The setting of this name.
    #[tactic(auto, unfolding(crate::specs::Profile::setting_named))]
    pub fn named(name: &[u8]) -> Option<Setting>
        ensures { result ≡ setting_named name.now }
    {
        named_among(&SETTINGS, name)
    }

    pub fn put(self, profile: &mut Profile, value: u32)
        ensures { profile.new ≡ with_setting profile.old self value }
    {
        match self {
            Setting::Stages => profile.stages = value,
            Setting::Cells => profile.cells = value,
            Setting::Ops => profile.ops = value,
            Setting::Words => profile.words = value,
            Setting::Width => profile.width = value,
            Setting::Window => profile.window = value,
            Setting::DistinctRows => profile.distinct_rows = value,
            Setting::DistinctCols => profile.distinct_cols = value,
            Setting::GroupRows => profile.group_rows = value,
            Setting::GroupCols => profile.group_cols = value,
            Setting::TopSteps => profile.top_steps = value,
            Setting::TopGap => profile.top_gap = value,
            Setting::SketchHashes => profile.sketch_hashes = value,
            Setting::SketchCells => profile.sketch_cells = value,
            Setting::BloomHashes => profile.bloom_hashes = value,
            Setting::BloomCells => profile.bloom_cells = value,
            Setting::SkylinePoints => profile.skyline_points = value,
        }
    }
}
